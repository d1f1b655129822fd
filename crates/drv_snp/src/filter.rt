//! Which destinations the filters pass. The device's state isn't here.
ghost use Rattle.std.specs.Prelude.{◌≡◌, ◌<◌};
ghost use Rattle.drv_snp.specs.Devices.{has_bit, passes};

use efi_base::Mac;
use efi_link::{is_everyone, is_multicast, is_same};

/// The mask of all filters.
pub(crate) const ALL: u8 = 0x1F;

/// The filters of a device that was just initialized: unicasts to the station, and broadcasts.
pub(crate) const FIRST: u8 = 0x05;

const UNICAST: u32 = 0;

const MULTICAST: u32 = 1;

const BROADCAST: u32 = 2;

const PROMISCUOUS: u32 = 3;

const ALL_MULTICAST: u32 = 4;

fn has_bit(filters: u8, bit: u32) -> bool
    requires { bit < 8 }
    ensures { result ≡ has_bit filters bit }
{
    (filters >> bit) % 2 == 1
}

/// Whether the filters of the station of this address pass the destination.
pub(crate) fn passes(filters: u8, mac: Mac, dest: Mac) -> bool
    ensures { result ≡ passes filters mac.0 dest.0 }
{
    (has_bit(filters, UNICAST) && is_same(mac, dest))
        || ((has_bit(filters, MULTICAST) || has_bit(filters, ALL_MULTICAST)) && is_multicast(dest))
        || (has_bit(filters, BROADCAST) && is_everyone(dest))
        || has_bit(filters, PROMISCUOUS)
}
