use thiserror::Error;

/// One move of a thread, with what it was told where it was told something: a time in microseconds, or a word.
#[derive(Clone, Copy, Debug, PartialEq, Eq)]
pub struct PlainMove {
    /// The thread that moves, from 0.
    pub thread: u32,
    /// What it is told; `None` exactly where the program asks for nothing, in a legal move.
    pub answer: Option<u64>,
}

/// Why a move is none that the plain machine may make.
#[derive(Clone, Copy, Debug, PartialEq, Eq, Error)]
pub enum PlayCause {
    /// The thread is none of the box.
    #[error("no such thread")]
    NoSuchThread = 1,
    /// The thread has no packet in hand, and no further input.
    #[error("nothing to take")]
    NothingToTake = 2,
    /// The program asks for the time or for a random word, and no answer stands there.
    #[error("missing answer")]
    MissingAnswer = 3,
    /// An answer stands there, and the program asks for none.
    #[error("unwanted answer")]
    UnwantedAnswer = 4,
}

/// The first move of a list that the plain machine may not make: its number, from 1, and why.
#[derive(Clone, Copy, Debug, PartialEq, Eq, Error)]
#[error("move {number}: {cause}")]
pub struct PlayFault {
    /// The number of the move in the list, from 1.
    pub number: u64,
    /// Why the machine may not make it.
    pub cause: PlayCause,
}
