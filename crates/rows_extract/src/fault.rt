//! Why a row isn't run.
use std::alloc::{AllocError, AllocFailed};
use std::{fmt, io};

/// Why a row isn't run.
#[derive(Debug, Drop)]
pub(crate) enum RowFault {
    /// Its text isn't of the form.
    Text(&'static str),
    /// There was no memory for it, or nothing takes what it prints.
    Failed,
}

impl From<AllocError> for RowFault {
    fn from(_e: AllocError) -> RowFault {
        RowFault::Failed
    }
}

/// What wasn't stored is dropped.
impl<T: Drop> From<AllocFailed<T>> for RowFault {
    fn from(_e: AllocFailed<T>) -> RowFault {
        RowFault::Failed
    }
}

impl From<fmt::Error> for RowFault {
    fn from(_e: fmt::Error) -> RowFault {
        RowFault::Failed
    }
}

impl From<io::Error> for RowFault {
    fn from(_e: io::Error) -> RowFault {
        RowFault::Failed
    }
}
