//! Why a call is refused. A refused call changes nothing.

/// The field of a configuration that is out of its range.
#[derive(Clone, Copy, PartialEq, Eq, Debug)]
pub enum Field {
    Filter,
    Length,
    Address,
    Mask,
    Port,
    Tries,
    Gap,
    Server,
    Name,
    Url,
    Room,
}

/// What a call answers at once where it isn't accepted.
#[derive(Clone, Copy, PartialEq, Eq, Debug)]
pub enum Refuse {
    /// No live child of this protocol has that handle.
    BadHandle,
    /// The child, or what the call needs, isn't configured or started.
    NotStarted,
    /// It is configured or started already.
    AlreadyStarted,
    /// What is asked for is taken, or is there already.
    AccessDenied,
    /// The default address is used and none is set.
    NoMapping,
    /// The named field is out of its range.
    BadConfig(Field),
    /// The token, entry or route that is named isn't there.
    NotFound,
    /// The destination isn't a broadcast and no route matches.
    NoRoute,
    /// A stated limit is reached.
    NotReady,
    /// There are no further numbers.
    Exhausted,
    /// There was no memory for the work.
    OutOfResources,
}

/// Why a call is refused, and the work that was handed in, as it was.
#[derive(Debug, Drop)]
pub struct Refused<T> {
    pub why: Refuse,
    pub work: T,
}
