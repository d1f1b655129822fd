//! Why an object of the outside gave or took nothing.

/// An object of the outside failed, and its count of faults rose.
#[derive(Clone, Copy, PartialEq, Eq, Debug)]
pub struct Failed;

/// Why a sink took nothing.
#[derive(Clone, Copy, PartialEq, Eq, Debug)]
pub enum Miss {
    /// It failed, and its count of faults rose.
    Failed,
    /// It stores what it takes, and there was no memory.
    OutOfResources,
}
