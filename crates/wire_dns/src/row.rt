//! A row as its readers see it. Where it lies in a message isn't here.
use efi_base::{Ip4, Name};

/// A row of class IN (RFC 1035, section 3.2.1): its owner's name, the seconds for which it holds, and what it says.
#[derive(Debug, Drop)]
pub struct Row {
    pub name: Name,
    pub secs: u32,
    pub value: RowValue,
}

/// What a row says: an address (type A), the name of which its owner is an alias (CNAME), or a name that it points to (PTR).
#[derive(Debug, Drop)]
pub enum RowValue {
    At(Ip4),
    Alias(Name),
    Pointer(Name),
}
