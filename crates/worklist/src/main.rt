// worklist: works lists of calls on jobs, told in plain lines on standard input, and prints a line for each call.
#![tactic(auto)]

mod fault;
mod list;
mod numbers;
mod printing;
mod reading;
#[cfg(test)]
mod tests;
mod working;

use fault::Fault;
use list::Worklist;
use printing::print_outcome;
use reading::{nothing_told, read_line};
use std::alloc::Global;
use std::io::{BufRead, BufReader, Stdin};
use std::process::ExitCode;
use thiserror::Error;
use working::work_job;

// What is wrong, and in which line.
#[derive(Debug, Drop, Error)]
#[error("line {line}: {fault}")]
struct Misread {
    line: usize,
    fault: Fault,
}

// Reads all lines, up to the first that cannot be read.
fn read_all(heap: Global, input: BufReader<Stdin>) -> Result<Worklist, Misread> {
    let mut list = nothing_told(heap);
    for (line, text) in (1usize..).zip(input.lines(heap)) {
        let text = text.map_err(|_| Misread {
            line,
            fault: Fault::NotText,
        })?;
        read_line(heap, &mut list, text.as_str()).map_err(|fault| Misread { line, fault })?;
    }
    Ok(list)
}

// Works each job in turn, on the calls behind those of the job before it, and prints it.
fn work_all(rt: &HostRuntime, list: &Worklist) -> anyhow::Result<()> {
    let (rows, columns) = list.size.unwrap_or((0, 0));
    let mut rest = list.requests.as_slice();
    for calls in &list.jobs {
        let requests = rest.split_off(..*calls).unwrap_or(&[]);
        let outcome = work_job(rt.alloc(), list, rows, columns, requests)?;
        print_outcome(rt, rows, columns, &outcome)?;
    }
    Ok(())
}

// Works nothing unless every line can be read; a line that cannot be is told in one line on standard error.
fn main(rt: HostRuntime) -> anyhow::Result<ExitCode> {
    let input = BufReader::new(rt.alloc(), rt.stdin())?;
    match read_all(rt.alloc(), input) {
        Ok(list) => {
            work_all(&rt, &list)?;
            Ok(ExitCode::SUCCESS)
        }
        Err(misread) => {
            eprintln!(rt; "worklist: {misread}")?;
            Ok(ExitCode::FAILURE)
        }
    }
}
