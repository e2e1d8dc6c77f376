// Numbers and bytes in words.
use crate::fault::Fault;
use std::alloc::Global;
use std::str::FromStr;

// A whole number of a type, whose range the fault tells.
fn parsed<N: FromStr>(heap: Global, word: &str, range: &'static str) -> Result<N, Fault>
where
    N::Err: Drop,
{
    match word.parse::<N>() {
        Ok(n) => Ok(n),
        Err(_) => Err(Fault::NoNumber {
            word: String::from_str(heap, word)?,
            range,
        }),
    }
}

// A whole number from 0 up.
pub fn number(heap: Global, word: &str) -> Result<usize, Fault> {
    parsed(heap, word, "0 to 18446744073709551615")
}

// A whole number of 32 bits with a sign.
pub fn signed(heap: Global, word: &str) -> Result<i32, Fault> {
    parsed(heap, word, "-2147483648 to 2147483647")
}

// The two numbers that are all the words.
pub fn two_numbers(
    heap: Global,
    words: &[String],
    form: &'static str,
) -> Result<(usize, usize), Fault> {
    let [first, second] = words else {
        return Err(Fault::Form(form));
    };
    Ok((
        number(heap, first.as_str())?,
        number(heap, second.as_str())?,
    ))
}

// The bytes of a word, two hexadecimal digits each.
pub fn bytes(heap: Global, word: &str) -> Result<Vec<u8>, Fault> {
    let mut bytes = vec![in heap; 0u8; word.len() / 2]?;
    match hex::decode_to_slice(word, bytes.as_mut_slice()) {
        Ok(()) => Ok(bytes),
        Err(_) => Err(Fault::NoBytes(String::from_str(heap, word)?)),
    }
}
