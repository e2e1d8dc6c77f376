// What Pack writes and answers.
use grid::Size;
use netpbm::pack;
use refusal::Refusal;

// What Pack answers for a size of so many rows and columns.
fn packed(rows: usize, columns: usize, codes: &[u8], out: &mut [u8]) -> Result<usize, Refusal> {
    let size = Size::new(rows, columns)?;
    pack(&size, codes, out)
}

// A row of nine squares takes two bytes, the second padded with zeros; what lies behind stays.
#[test]
fn nine_columns(rt: HostRuntime) {
    let mut out = [7u8; 10];
    assert_eq!(rt; packed(1, 9, &[0, 1, 1, 1, 1, 1, 0, 1, 0], &mut out), Ok(9));
    assert_eq!(rt; out, *b"P4\n9 1\n\x82\x80\x07");
}

// Each row begins with a byte of its own.
#[test]
fn two_rows(rt: HostRuntime) {
    let mut out = [7u8; 9];
    assert_eq!(rt; packed(2, 2, &[0, 0, 1, 1], &mut out), Ok(9));
    assert_eq!(rt; out, *b"P4\n2 2\n\xc0\x00");
    assert_eq!(rt; packed(2, 3, &[1, 1, 0, 0, 1, 0], &mut out), Ok(9));
    assert_eq!(rt; out, *b"P4\n3 2\n\x20\xa0");
}

// The refusals in their order, each of which writes nothing.
#[test]
fn refusals(rt: HostRuntime) {
    let mut short = [7u8; 7];
    assert_eq!(rt; packed(1, 3, &[0, 2], &mut short), Err(Refusal::BandLength));
    assert_eq!(rt;
        packed(1, 3, &[0, 2, 255], &mut short),
        Err(Refusal::OutputTooShort)
    );
    assert_eq!(rt; short, [7; 7]);
    let mut out = [7u8; 8];
    assert_eq!(rt;
        packed(1, 3, &[0, 2, 0, 0], &mut out),
        Err(Refusal::BandLength)
    );
    assert_eq!(rt;
        packed(1, 3, &[0, 2, 255], &mut out),
        Err(Refusal::CodeAboveOne)
    );
    assert_eq!(rt;
        packed(1, 3, &[1, 255, 2], &mut out),
        Err(Refusal::SquareOpen)
    );
    assert_eq!(rt;
        packed(1, 3, &[1, 254, 255], &mut out),
        Err(Refusal::CodeAboveOne)
    );
    assert_eq!(rt; out, [7; 8]);
}

// The longest row: a header of ten bytes and 512 bytes; one byte less is too short.
#[test]
fn longest_row(rt: HostRuntime) {
    let codes = [0u8; 4096];
    let mut short = [7u8; 521];
    assert_eq!(rt;
        packed(1, 4096, &codes, &mut short),
        Err(Refusal::OutputTooShort)
    );
    let mut out = [7u8; 523];
    assert_eq!(rt; packed(1, 4096, &codes, &mut out), Ok(522));
    assert_eq!(rt; out[9], b'\n');
    assert_eq!(rt; out[10], 255);
    assert_eq!(rt; out[521], 255);
    assert_eq!(rt; out[522], 7);
}

// The longest column: a byte for each of its squares.
#[test]
fn longest_column(rt: HostRuntime) {
    let codes = [0u8; 4096];
    let mut short = [7u8; 4105];
    assert_eq!(rt;
        packed(4096, 1, &codes, &mut short),
        Err(Refusal::OutputTooShort)
    );
    let mut out = [7u8; 4107];
    assert_eq!(rt; packed(4096, 1, &codes, &mut out), Ok(4106));
    assert_eq!(rt; out[10], 128);
    assert_eq!(rt; out[4105], 128);
    assert_eq!(rt; out[4106], 7);
}
