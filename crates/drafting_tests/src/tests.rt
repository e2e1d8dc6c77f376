// What is written and answered.
use drafting::{DraftFault, draft};

const FOUR_SQUARES: &[u8; 26] = b"P2 2 2 255 100 100 100 100";

// Read's refusal of an input, as number and offset; 0 and 0 where there is another answer.
fn unread(input: &[u8]) -> (u8, usize) {
    let mut out = [7u8; 16];
    match draft(input, &mut out) {
        Err(DraftFault::Unread(fault)) => (fault.refusal.number(), fault.offset),
        _ => (0, 0),
    }
}

// Four squares of one tone, and what lies behind the file stays.
#[test]
fn four_squares(rt: HostRuntime) {
    let mut out = [7u8; 10];
    assert_eq!(rt; draft(FOUR_SQUARES, &mut out), Ok(9));
    assert_eq!(rt; out, *b"P4\n2 2\n\xc0\x00\x07");
}

// Black and white in turn leave no errors; nine columns take two bytes.
#[test]
fn nine_columns(rt: HostRuntime) {
    let mut out = [7u8; 10];
    assert_eq!(rt;
        draft(b"P2 9 1 255 0 255 0 255 0 255 0 255 0", &mut out),
        Ok(9)
    );
    assert_eq!(rt; out, *b"P4\n9 1\n\xaa\x80\x07");
}

// An output that is one byte short gets nothing.
#[test]
fn output_too_short(rt: HostRuntime) {
    let mut out = [7u8; 8];
    assert_eq!(rt;
        draft(FOUR_SQUARES, &mut out),
        Err(DraftFault::OutputTooShort)
    );
    assert_eq!(rt; out, [7; 8]);
}

// The longest input is taken, and one that is a byte longer is not, whatever stands in front of it.
#[test]
fn longest_input(rt: HostRuntime) {
    let mut input = [b' '; 65_537];
    input[0..26].copy_from_slice(FOUR_SQUARES);
    let mut out = [7u8; 9];
    assert_eq!(rt; draft(&input, &mut out), Err(DraftFault::InputTooLong));
    assert_eq!(rt; out, [7; 9]);
    assert_eq!(rt; draft(&input[0..65_536], &mut out), Ok(9));
}

// Read's refusals come through with their offsets; more than 4,096 squares are refused with 6 before any sample is looked at.
#[test]
fn refusals_of_read(rt: HostRuntime) {
    assert_eq!(rt; unread(b""), (12, 0));
    assert_eq!(rt; unread(b"P2 64 65 255 x"), (6, 0));
    assert_eq!(rt; unread(b"P2 64 64 255 x"), (13, 13));
    assert_eq!(rt; unread(b"P2 1 4097 255 0"), (1, 0));
    assert_eq!(rt; unread(b"P2 2 1 9 9 10"), (14, 11));
}
