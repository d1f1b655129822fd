//! The answer to a request (RFC 826, "Packet reception"). Whether an address is one of the station's isn't here.
ghost use Rattle.std.specs.Prelude.{◌≡◌};
ghost use Rattle.arp_cache.specs.Caches.{reply_of};

use efi_base::Mac;
use wire_link::{Arp, REPLY, REQUEST};

/// The reply of the station with an Ethernet address to a packet that was heard; `is_ours` says whether the target's address
/// is one of the station's.
pub fn reply_to(heard: &Arp, mac: Mac, is_ours: bool) -> Option<Arp>
    ensures { result ≡ reply_of heard.now mac is_ours }
{
    if !is_ours {
        return None;
    }
    if heard.op != REQUEST {
        return None;
    }
    Some(Arp {
        op: REPLY,
        sha: mac,
        spa: heard.tpa,
        tha: heard.sha,
        tpa: heard.spa,
    })
}
