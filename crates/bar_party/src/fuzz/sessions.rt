//! A session of one round, whose keys are fast to make.

use crate::fuzz::stop::Stop;
use bar_lms::{Params, SecretKey};
use bar_seeds::SeedChain;
use std::alloc::{AllocError, Global};

const ID: [u8; 8] = [0x00, 0x11, 0x22, 0x33, 0x44, 0x55, 0x66, 0x77];

/// The lines of a party's public key, and of its anchor.
fn lines_of(
    alloc: Global,
    params: Params,
    party: u16,
    secret: &[u8; 32],
) -> Result<[String; 2], AllocError> {
    let key = SecretKey::make(alloc, params, &ID, secret)?;
    let chain = SeedChain::make(alloc, &ID, party, 1, secret)?;
    let key = hex::encode(alloc, key.public().as_slice())?;
    let anchor = hex::encode(alloc, chain.anchor().as_slice())?;
    Ok([
        format!(in alloc; "key = \"{key}\"\n")?,
        format!(in alloc; "anchor = \"{anchor}\"\n")?,
    ])
}

/// The text of a session of two peers. Each of the 32 bytes of a party's secret is its number plus 7.
pub fn small_text(alloc: Global) -> Result<String, Stop> {
    let Ok(params) = Params::of_types(5, 1) else {
        return Err(Stop::Found("there are no such types"));
    };
    let mut text = String::from_str(
        alloc,
        "version = 1\nid = \"0011223344556677\"\nrounds = 1\nlife = 4\ncap = 4\nper_round = 8\nfanout = 1\n\
        port = 20000\ntick_ms = 20\nlms = 5\nots = 1\n",
    )?;
    for (party, secret) in [(0, [7; 32]), (1, [8; 32]), (2, [9; 32])] {
        let [key, anchor] = lines_of(alloc, params, party, &secret)?;
        if party > 0 {
            text.push_str("[[peer]]\n")?;
        }
        text.push_str(key.as_str())?;
        if party > 0 {
            text.push_str(anchor.as_str())?;
        }
    }
    Ok(text)
}
