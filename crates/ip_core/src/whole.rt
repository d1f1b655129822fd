//! A datagram that is lent.
use efi_base::Ip4;

/// A datagram, whose payload lies where it was joined, or in the packet where that wasn't fragmented.
#[derive(Clone, Copy, PartialEq, Eq, Debug)]
pub struct Whole<'a> {
    pub src: Ip4,
    pub dest: Ip4,
    pub proto: u8,
    pub id: u16,
    pub payload: &'a [u8],
}
