// plansheet: prints the sheet of a plan that is told in words, as `plansheet knuth mirror shift 3 200`.
#![tactic(auto)]

mod printing;

use anyhow::anyhow;
use plan_words::parse_pile;
use printing::print_sheet;
use std::env;
use std::process::ExitCode;

// The words of the command line, without the program's own name.
fn arguments(rt: &HostRuntime) -> anyhow::Result<Vec<String>> {
    Ok(env::args(rt)?.skip(1).collect(rt.alloc())?)
}

// Prints the sheet, or says on standard error why there is none.
fn print_told(rt: &HostRuntime) -> anyhow::Result<()> {
    let words = arguments(rt)?;
    match parse_pile(rt.alloc(), words.as_slice()) {
        Ok(pile) => print_sheet(rt, words.as_slice(), &pile),
        Err(fault) => {
            eprintln!(rt; "plansheet: {fault}")?;
            Err(anyhow!("no sheet was printed"))
        }
    }
}

// A refusal has been said in one line, and an error is not said again. `draft` ends alike; six lines in two programs are no crate of their own.
fn main(rt: HostRuntime) -> ExitCode {
    match print_told(&rt) {
        Ok(()) => ExitCode::SUCCESS,
        Err(_) => ExitCode::FAILURE,
    }
}
