// What can be wrong with a line of the input, and how it is said in one line.
use std::alloc::AllocError;
use thiserror::Error;

#[derive(Debug, Drop, Error)]
pub enum Fault {
    // The line is no text.
    #[error("this is no text")]
    NotText,
    // A first word that no line has.
    #[error("'{0}' begins no line: write plan, threshold, size, tones, open, fix, follow, finish, halt, resume, tally or losses")]
    UnknownWord(String),
    // Too few or too many words, and how the line is written.
    #[error("this line is to be written: {0}")]
    Form(&'static str),
    // A word that is no whole number of the range that is wanted.
    #[error("'{word}' is no whole number from {range}")]
    NoNumber { word: String, range: &'static str },
    // A word that is no row of bytes.
    #[error("'{0}' is no row of bytes of two hexadecimal digits each")]
    NoBytes(String),
    // The words tell no plan.
    #[error(transparent)]
    Plan(#[from] plan_words::Fault),
    // What is told once was told already.
    #[error("the {0} was told already")]
    Twice(&'static str),
    // What is told before the first call stands behind it.
    #[error("a line '{0}' stands only before the first call")]
    Late(&'static str),
    // A call before the size was told.
    #[error("a line 'size' is wanted before the first call")]
    NoSize,
    // No memory.
    #[error("there is not enough memory")]
    Memory(#[from(alloc)] AllocError),
}
