//! Tests of `keygen` over files and sinks in memory. The expected texts were made by independent programs.
use crate::outcome::{Left, check_end, check_file, outside_of, run};
use bar_outside::MemFiles;
use std::alloc::{AllocError, Global};
use std::test::Fail;

/// The command line for the broadcaster's key from a secret of 32 times the byte 7.
const CASTER: &str =
    "keygen --key=k --secret s --ots=4 --lms 5 --rounds=1 --id 0011223344556677 --party 0";

/// Runs `keygen` while these calls of the files and these writes to out fail.
fn run_keygen(alloc: Global, fail_files: &[u64], fail_out: &[u64]) -> Result<Left, AllocError> {
    let mut files = MemFiles::make(alloc, fail_files.to_vec(alloc)?);
    files.put("s", &[7; 32])?;
    run(alloc, CASTER, outside_of(alloc, files, fail_out, &[])?)
}

const OUT: &str =
    "key = \"00000005000000048d1e3644fdcc75d960cb49ec9469684855d80022f946f6a3fe6e69fd38c4e6da8abc3355c589089eab49998762e7de01\"\n";

const KEY: &str =
    "version = 1\nid = \"0011223344556677\"\nparty = 0\nrounds = 1\nlms = 5\nots = 4\n\
    secret = \"0707070707070707070707070707070707070707070707070707070707070707\"\nspent = false\n";

const FAILED: &str = "bar: file failed\n";

/// The failing calls of the files and writes to out, the status, the output on err, and how many bytes were printed and written to the key
/// file, `None` if the file doesn't exist.
const ENDS: [(&[u64], &[u64], u8, &str, usize, Option<usize>); 5] = [
    (&[1], &[], 3, FAILED, 0, None),
    (&[2], &[], 3, FAILED, 0, None),
    (&[3], &[], 3, FAILED, 0, Some(81)),
    (&[], &[1], 7, "bar: output failed\n", 60, Some(163)),
    (&[], &[], 0, "", 121, Some(163)),
];

#[test]
fn statuses_and_lines_of_keys(rt: HostRuntime) -> Result<(), Fail> {
    let alloc = rt.alloc();
    for (fail_files, fail_out, status, said, printed, written) in ENDS {
        let left = run_keygen(alloc, fail_files, fail_out)?;
        check_end(&rt, &left, status, OUT.get(..printed).unwrap_or(""), said);
        let key = written.map_or(Some(b"none".as_slice()), |len| KEY.as_bytes().get(..len));
        check_file(&rt, &left, "k", key.unwrap_or(b""));
    }
    Ok(())
}
