//! What the programs of this repository share at their start: reading arguments and whole files, and keeping the numbers of the standard
//! streams.
#![tactic(auto)]

mod streams;

use std::env::Env;
use std::io::Read;
use std::{env, fs, io, rt};
pub use streams::{HeldStreams, hold_streams};

/// The arguments after the program's name. An argument that isn't UTF-8 is an error.
pub fn words_of<R: Env + AllocGlobal>(rt: &R) -> io::Result<Vec<String>> {
    let mut words = Vec::new(rt.alloc());
    for word in env::args(rt)?.skip(1) {
        words.push(word)?;
    }
    Ok(words)
}

/// Reads all the bytes of a file.
pub fn read_file<R: rt::Files + AllocGlobal>(rt: &R, path: &str) -> io::Result<Vec<u8>> {
    let mut bytes = Vec::new(rt.alloc());
    fs::open(rt, path)?.read_to_end(&mut bytes)?;
    Ok(bytes)
}
