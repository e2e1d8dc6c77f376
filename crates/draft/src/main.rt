// draft: reads a plain PGM from standard input and writes its draft to standard output as a raw PBM. Where there is no draft it writes
// nothing and ends with status 1.
#![tactic(auto)]

use anyhow::anyhow;
use drafting::draft;
use std::io::{Read, Write};
use std::process::ExitCode;

// One byte more than the longest input, so that a longer one is seen.
const MOST_READ: u64 = 65_537;

// No draft of a drawing that is read is longer.
const MOST_WRITTEN: usize = 4_109;

// Reads the drawing and writes its draft; an error where there is none.
fn convert(rt: &HostRuntime) -> anyhow::Result<()> {
    let mut input = Vec::new(rt.alloc());
    let _ = rt.stdin().take(MOST_READ).read_to_end(&mut input)?;
    // An array, since the library writes into a slice of a known greatest length and answers how much of it counts.
    let mut out = [0u8; MOST_WRITTEN];
    let length = draft(input.as_slice(), &mut out).map_err(|_| anyhow!("no draft"))?;
    rt.stdout().write_all(&out[..length])?;
    Ok(())
}

// An error is not said, since standard error stays empty too. `plansheet` ends alike; six lines in two programs are no crate of their own.
fn main(rt: HostRuntime) -> ExitCode {
    match convert(&rt) {
        Ok(()) => ExitCode::SUCCESS,
        Err(_) => ExitCode::FAILURE,
    }
}
