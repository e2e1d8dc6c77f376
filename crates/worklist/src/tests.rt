// What is said of lines that cannot be read.
use crate::reading::{nothing_told, read_line};
use std::alloc::{AllocError, Global};
use std::process::Abort;
use std::test::Fail;

// The message for a line behind another one, or no text where both can be read.
fn message(heap: Global, before: &str, line: &str) -> Result<String, AllocError> {
    let mut list = nothing_told(heap);
    if read_line(heap, &mut list, before).is_err() {
        return Ok(String::new(heap));
    }
    match read_line(heap, &mut list, line) {
        Ok(_) => Ok(String::new(heap)),
        Err(fault) => format!(in heap; "{fault}"),
    }
}

// Checks the message for a line behind another one.
fn says(rt: &impl Abort, heap: Global, before: &str, line: &str, due: &str) -> Result<(), Fail> {
    let said = message(heap, before, line)?;
    assert!(rt; said.as_str() == due);
    Ok(())
}

// Words that no line has, and too few or too many words.
#[test]
fn wrong_words(rt: HostRuntime) -> Result<(), Fail> {
    let heap = rt.alloc();
    says(
        &rt,
        heap,
        "",
        "size 1",
        "this line is to be written: size ROWS COLUMNS",
    )?;
    says(
        &rt,
        heap,
        "size 1 3",
        "fix 0 0 0",
        "this line is to be written: fix ROW COLUMN",
    )?;
    says(
        &rt,
        heap,
        "size 1 3",
        "finish 1",
        "this line is to be written: finish",
    )
}

// Words that are no numbers, no tones and no bytes.
#[test]
fn wrong_numbers(rt: HostRuntime) -> Result<(), Fail> {
    let heap = rt.alloc();
    says(
        &rt,
        heap,
        "",
        "size 1 -3",
        "'-3' is no whole number from 0 to 18446744073709551615",
    )?;
    says(
        &rt,
        heap,
        "size 1 3",
        "resume 000",
        "'000' is no row of bytes of two hexadecimal digits each",
    )?;
    says(
        &rt,
        heap,
        "size 1 3",
        "resume 0G",
        "'0G' is no row of bytes of two hexadecimal digits each",
    )
}

// Lines that stand in a wrong place.
#[test]
fn wrong_order(rt: HostRuntime) -> Result<(), Fail> {
    let heap = rt.alloc();
    says(
        &rt,
        heap,
        "",
        "fix 0 0",
        "a line 'size' is wanted before the first call",
    )?;
    says(
        &rt,
        heap,
        "size 1 3",
        "size 1 3",
        "the size was told already",
    )
}
