//! Which Ethernet addresses are which. Which of them a station hears isn't here.
ghost use Rattle.std.specs.Prelude.{◌≡◌};
ghost use Rattle.efi_link.specs.Addresses.{is_everyone, is_multicast, is_same};

use efi_base::Mac;

pub fn is_same(a: Mac, b: Mac) -> bool
    ensures { result ≡ is_same a.0 b.0 }
{
    a.0 == b.0
}

/// Whether it is the broadcast, ff:ff:ff:ff:ff:ff.
pub fn is_everyone(mac: Mac) -> bool
    ensures { result ≡ is_everyone mac.0 }
{
    mac.0 == [0xFF; 6]
}

/// Whether it names a group of stations other than all.
pub fn is_multicast(mac: Mac) -> bool
    ensures { result ≡ is_multicast mac.0 }
{
    mac.0[0] % 2 == 1 && !is_everyone(mac)
}
