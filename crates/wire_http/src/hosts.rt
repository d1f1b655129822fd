//! Whom a URI names.
use efi_base::{Ip4, Name};

/// The host of a URI: an address, or a name that can be asked for.
#[derive(Debug, Drop)]
pub enum Host {
    At(Ip4),
    Named(Name),
}
