//! Why a text is no URI that a load can be asked for.
use thiserror::Error;

/// Causes are looked at in this order, but for want of memory.
#[derive(Clone, Copy, PartialEq, Eq, Debug, Error)]
pub enum UriFault {
    /// The octets are no URL, or its port is 0.
    #[error("no URL with a port above 0")]
    Bad,
    /// The scheme isn't `http`.
    #[error("the scheme isn't http")]
    Scheme,
    /// The host is no unicast IPv4 address and no name.
    #[error("the host is neither a unicast IPv4 address nor a name")]
    Host,
    /// There was no memory for the work, or the URL is longer than 32 bits count.
    #[error("no memory")]
    OutOfResources,
}
