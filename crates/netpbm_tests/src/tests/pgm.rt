// What Read answers to files that are right, or wrong in one place.
use netpbm::{Fault, read_pgm};
use refusal::Refusal;
use std::process::Abort;

// A file, and what Read answers: the offset behind the last sample, or a fault.
#[derive(Clone, Copy)]
struct Case {
    input: &'static [u8],
    answer: Result<usize, Fault>,
}

// A file that is read up to an offset.
fn taken(input: &'static [u8], end: usize) -> Case {
    Case {
        input,
        answer: Ok(end),
    }
}

// A file that is refused, with the offset that is told.
fn refused(input: &'static [u8], refusal: Refusal, offset: usize) -> Case {
    Case {
        input,
        answer: Err(Fault { refusal, offset }),
    }
}

// What Read answers, with a band of 16 bytes.
fn told(input: &[u8]) -> Result<usize, Fault> {
    let mut band = [7u8; 16];
    Ok(read_pgm(input, &mut band)?.end)
}

// Checks every row of a table.
fn check_all(rt: &impl Abort, cases: &[Case]) {
    for (i, case) in cases.iter().enumerate() {
        assert_eq!(rt; told(case.input), case.answer, "case {i}");
    }
}

// The first three bytes decide.
#[test]
fn beginnings(rt: HostRuntime) {
    check_all(
        &rt,
        &[
            refused(b"", Refusal::NotPlainPgm, 0),
            refused(b"P2", Refusal::NotPlainPgm, 0),
            refused(b"P2x1 1 255 0", Refusal::NotPlainPgm, 0),
            refused(b"P2\x0c1 1 255 0", Refusal::NotPlainPgm, 0),
            refused(b"P5 1 1 255 0", Refusal::NotPlainPgm, 0),
            refused(b" P2 1 1 255 0", Refusal::NotPlainPgm, 0),
            refused(b"P2 ", Refusal::NotANumber, 3),
        ],
    );
}

// All three numbers of the head are judged before the size, by their value and whatever their length.
#[test]
fn head_numbers(rt: HostRuntime) {
    check_all(
        &rt,
        &[
            refused(b"P2 0 0", Refusal::NotANumber, 6),
            refused(b"P2 0 0 ", Refusal::NotANumber, 7),
            refused(b"P2 1 x 255 0", Refusal::NotANumber, 5),
            refused(b"P2 # one", Refusal::NotANumber, 3),
            refused(b"P2 70000 1 255 0", Refusal::NotANumber, 3),
            refused(b"P2 65536 1 255 0", Refusal::NotANumber, 3),
            refused(b"P2 1 65536 255 0", Refusal::NotANumber, 5),
            refused(b"P2 1 1 65536 0", Refusal::NotANumber, 7),
            taken(b"P2 000000000000000000000000000001 1 255 9", 41),
            refused(
                b"P2 1 1 100000000000000000000000000000 0",
                Refusal::NotANumber,
                7,
            ),
        ],
    );
}

// A size outside the limits comes before the greatest sample, and that before a short band.
#[test]
fn sizes(rt: HostRuntime) {
    check_all(
        &rt,
        &[
            refused(b"P2 0 5 0", Refusal::SizeOutsideLimits, 0),
            refused(b"P2 5000 1 255 0", Refusal::SizeOutsideLimits, 0),
            refused(b"P2 65535 1 0 0", Refusal::SizeOutsideLimits, 0),
            refused(b"P2 4097 1 255", Refusal::SizeOutsideLimits, 0),
            refused(b"P2 4096 257 255", Refusal::SizeOutsideLimits, 0),
            refused(b"P2 4096 256 0", Refusal::SampleOutsideRange, 12),
            refused(b"P2 4096 256 255", Refusal::OutputTooShort, 0),
            refused(b"P2 1 1 0 0", Refusal::SampleOutsideRange, 7),
            refused(b"P2 1 1 256 0", Refusal::SampleOutsideRange, 7),
            refused(b"P2 17 1 255 x", Refusal::OutputTooShort, 0),
            refused(b"P2 1 17 255 x", Refusal::OutputTooShort, 0),
            refused(b"P2 4 4 255 x", Refusal::NotANumber, 11),
        ],
    );
}

// Each sample is judged as a number, then by the greatest one; what follows the last is not looked at.
#[test]
fn samples(rt: HostRuntime) {
    check_all(
        &rt,
        &[
            refused(b"P2 1 1 255 65536", Refusal::NotANumber, 11),
            refused(b"P2 1 1 255 65535", Refusal::SampleOutsideRange, 11),
            refused(b"P2 1 1 255 300", Refusal::SampleOutsideRange, 11),
            taken(b"P2 1 1 255 007", 14),
            refused(b"P2 1 1 255 1x", Refusal::NotANumber, 11),
            refused(b"P2 1 1 255 +1", Refusal::NotANumber, 11),
            refused(b"P2 1 1 255", Refusal::NotANumber, 10),
            refused(b"P2 2 1 255 5", Refusal::NotANumber, 12),
            refused(b"P2 2 1 255 5 \n", Refusal::NotANumber, 14),
            refused(b"P2 2 1 9 9 10", Refusal::SampleOutsideRange, 11),
            taken(b"P2 1 1 255 5 \xff# more", 12),
            taken(b"P2\r\n2 1\r\n255\r\n1 2\r\n", 17),
            taken(b"P2\t\t1 \r\n1\n255\t 5", 16),
        ],
    );
}

// Reads into a band, and tells the rows and columns.
fn read_into(input: &[u8], band: &mut [u8]) -> Result<(usize, usize), Refusal> {
    match read_pgm(input, band) {
        Ok(picture) => Ok((picture.size.rows, picture.size.columns)),
        Err(fault) => Err(fault.refusal),
    }
}

// Columns come first in the file; the samples before a fault are written, and nothing behind them.
#[test]
fn bands(rt: HostRuntime) {
    let mut band = [7u8; 4];
    assert_eq!(rt; read_into(b"P2 3 1 9 1 2 3 4", &mut band), Ok((1, 3)));
    assert_eq!(rt; band, [1, 2, 3, 7]);
    assert_eq!(rt; read_into(b"P2 1 2 255 255 0", &mut band), Ok((2, 1)));
    assert_eq!(rt; band, [255, 0, 3, 7]);
    assert_eq!(rt;
        read_into(b"P2 2 2 9 8 9 10 9", &mut band),
        Err(Refusal::SampleOutsideRange)
    );
    assert_eq!(rt; band, [8, 9, 3, 7]);
    assert_eq!(rt;
        read_into(b"P2 5 1 9 1 1 1 1 1", &mut band),
        Err(Refusal::OutputTooShort)
    );
    assert_eq!(rt; band, [8, 9, 3, 7]);
}

// The longest row and the longest column stand: the first sample is missing, and no refusal comes before that.
#[test]
fn longest(rt: HostRuntime) {
    let mut band = [7u8; 4096];
    assert_eq!(rt;
        read_into(b"P2 4096 1 255", &mut band),
        Err(Refusal::NotANumber)
    );
    assert_eq!(rt;
        read_into(b"P2 1 4096 255", &mut band),
        Err(Refusal::NotANumber)
    );
}
