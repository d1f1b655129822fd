//! Why a capture can't be read.
use thiserror::Error;

/// Why a capture can't be read. A reader that told one tells the same to every later call.
#[derive(Clone, Copy, PartialEq, Eq, Debug, Error)]
pub enum CapFault {
    /// What begins at this octet, counted from the capture's first, is no header or no record.
    #[error("bad capture at {0}")]
    BadAt(u64),
    /// There was no memory to keep octets or to make a record.
    #[error("out of memory")]
    OutOfResources,
}
