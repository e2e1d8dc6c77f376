// The words of a plan, read one after the other.
ghost use Rattle.std.specs.Prelude.{◌≤◌, IfOk};

use crate::fault::Fault;
use std::alloc::{AllocError, Global};
use std::iter::Peekable;
use std::slice::Iter;

// The words that are not read yet, and the heap for what is kept of them.
#[derive(Drop)]
pub(crate) struct Words<'a> {
    heap: Global,
    left: Peekable<Iter<'a, String>>,
}

// Whether a word begins as a number does.
fn is_number(word: &str) -> bool {
    word.starts_with(|c: char| c.is_ascii_digit())
}

// The number that a word tells, where it is at most `most`.
fn number_in(heap: Global, word: &str, most: usize) -> Result<usize, Fault>
    ensures { IfOk result (λ n. n ≤ most) }
{
    match word.parse::<usize>() {
        Ok(n) if n <= most => Ok(n),
        _ => Err(Fault::NoNumber {
            word: String::from_str(heap, word)?,
            most,
        }),
    }
}

// The same for a byte. A greater number has been refused, so that the cast keeps the value and `try_from` would be a Result that is always Ok.
fn byte_in(heap: Global, word: &str) -> Result<u8, Fault> {
    Ok(number_in(heap, word, 255)? as u8)
}

impl<'a> Words<'a> {
    // All of the words.
    pub(crate) fn new(heap: Global, words: &'a [String]) -> Words<'a> {
        Words {
            heap,
            left: words.iter().peekable(),
        }
    }

    // The next word.
    pub(crate) fn next(&mut self) -> Option<&'a str> {
        self.left.next().map(|word| word.as_str())
    }

    // The next word, where a number is due.
    fn next_number(&mut self) -> Result<&'a str, Fault> {
        self.next().ok_or(Fault::MissingNumber)
    }

    // The number that the next word tells, where it is at most `most`.
    pub(crate) fn number(&mut self, most: usize) -> Result<usize, Fault>
        ensures { IfOk result (λ n. n ≤ most) }
    {
        let word = self.next_number()?;
        number_in(self.heap, word, most)
    }

    // The byte that the next word tells.
    pub(crate) fn byte(&mut self) -> Result<u8, Fault> {
        let word = self.next_number()?;
        byte_in(self.heap, word)
    }

    // The bytes that the next words tell, as long as they begin as numbers do.
    pub(crate) fn bytes(&mut self) -> Result<Vec<u8>, Fault> {
        let mut bytes = Vec::new(self.heap);
        while let Some(word) = self.left.next_if(|word| is_number(word.as_str())) {
            bytes.push(byte_in(self.heap, word.as_str())?)?;
        }
        Ok(bytes)
    }

    // A word of its own, to be told in a fault.
    pub(crate) fn owned(&self, word: &str) -> Result<String, AllocError> {
        String::from_str(self.heap, word)
    }
}
