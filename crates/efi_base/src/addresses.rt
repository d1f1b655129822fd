//! Which IPv4 addresses and masks are which (RFC 1122, section 3.2.1.3; RFC 4632, section 3.1).
ghost use Rattle.std.specs.Prelude.{◌≡◌};
ghost use Rattle.efi_base.specs.Addresses.{is_broadcast, is_mask, is_unicast};

use crate::plain::Ip4;

/// The first address that is no unicast address: 224.0.0.0.
const FIRST_MULTICAST: u32 = 0xE000_0000;

/// How many addresses there are.
const ADDRESSES: u64 = 1 << 32;

/// Whether one station can have it: it is neither 0.0.0.0 nor in 224.0.0.0/3.
pub fn is_unicast(ip: Ip4) -> bool
    ensures { result ≡ is_unicast ip.0 }
{
    ip.0 != 0 && ip.0 < FIRST_MULTICAST
}

/// Whether it is the limited broadcast, 255.255.255.255.
pub fn is_broadcast(ip: Ip4) -> bool
    ensures { result ≡ is_broadcast ip.0 }
{
    ip.0 == u32::MAX
}

/// Whether the mask is ones and then zeros.
pub fn is_mask(mask: u32) -> bool
    ensures { result ≡ is_mask mask }
{
    mask as u64 == ADDRESSES - (ADDRESSES >> mask.count_ones())
}
