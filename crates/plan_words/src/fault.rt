// What can be wrong with the words of a plan, and how it is said in one line.
use refusal::Refusal;
use std::alloc::AllocError;
use thiserror::Error;

#[derive(Debug, Drop, Error)]
pub enum Fault {
    // No word at all.
    #[error("name a plan: knuth, doubling ORDER, or table ROWS COLUMNS RANKS..")]
    NoPlan,
    // A word that is no plan's, where a plan's name is due.
    #[error("'{0}' is no plan: write knuth, doubling or table")]
    UnknownPlan(String),
    // A word that is no layer's, where a layer's name is due.
    #[error("'{0}' is no layer: write mirror, turn, reverse or shift ROWS COLUMNS")]
    UnknownLayer(String),
    // The words end where a number is due.
    #[error("a number is missing at the end")]
    MissingNumber,
    // A word that is no number from 0 up to a greatest.
    #[error("'{word}' is no number from 0 to {most}")]
    NoNumber { word: String, most: usize },
    // A sixth layer.
    #[error("a plan takes at most five layers")]
    TooManyLayers,
    // The library's refusal.
    #[error(transparent)]
    Refused(#[from] Refusal),
    // No memory.
    #[error("there is not enough memory")]
    Memory(#[from(alloc)] AllocError),
}
