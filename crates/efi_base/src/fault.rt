//! Answers that say why a call gave no value. The refusals of drivers aren't here.

use std::alloc::{AllocError, AllocFailed};

/// No text of the grammar stands there.
#[derive(Clone, Copy, PartialEq, Eq, Debug)]
pub struct Bad;

/// The text is longer than the room, which is as it was.
#[derive(Clone, Copy, PartialEq, Eq, Debug)]
pub struct NoRoom;

/// There was no memory for the work.
#[derive(Clone, Copy, PartialEq, Eq, Debug)]
pub struct NoMemory;

impl From<AllocError> for NoMemory {
    fn from(_e: AllocError) -> NoMemory {
        NoMemory
    }
}

/// What wasn't stored is dropped.
impl<T: Drop> From<AllocFailed<T>> for NoMemory {
    fn from(_e: AllocFailed<T>) -> NoMemory {
        NoMemory
    }
}
