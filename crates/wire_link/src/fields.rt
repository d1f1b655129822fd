//! Ethernet addresses at their places.
ghost use Rattle.std.specs.Prelude.{◌≡◌, ◌+◌, ◌≤◌, ◌++◌, length, drop, take};
ghost use Rattle.wire_link.specs.Seen.{mac_cells};

use efi_base::Mac;

/// The address in the six octets from this place on.
pub(crate) fn mac_at(bytes: &[u8], place: usize) -> Mac
    requires { place + 6 ≤ length bytes.now }
    ensures { result.0 ≡ take 6 (drop place bytes.now) }
{
    let mut octets = [0; 6];
    octets.copy_from_slice(&bytes[place..place + 6]);
    Mac(octets)
}

/// Writes the address to the front of the octets.
pub(crate) fn put_mac(octets: &mut [u8], mac: Mac)
    requires { 6 ≤ length octets.old }
    ensures cells { octets.new ≡ mac_cells mac.0 ++ drop 6 octets.old }
    ensures six { length mac.0 ≡ 6 }
{
    octets[..6].copy_from_slice(&mac.0);
}
