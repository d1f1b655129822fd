//! The IPv4 packets in Ethernet frames, read through the layers below (RFC 894). What datagrams they make isn't here.
ghost use Rattle.std.specs.Prelude.{◌≡◌, option_map};
ghost use Rattle.wire_ip4.specs.Seen.{packet_seen};
ghost use Rattle.tap_core.specs.Frames.{any_packet, heard_packet, holds_fragment, is_sent, verified_packet};

use efi_base::Mac;
use wire_ip4::{Ip, read_ip, read_ip_unverified};
use wire_link::read_ether;

/// The type of frames that hold IPv4 packets (RFC 894).
const IPV4: u16 = 0x0800;

/// The packet of a frame, whoever sent it, whether or not its header's checksum was filled in.
#[tactic(auto, unfolding(crate::specs::Frames::any_packet))]
pub fn read_any(frame: &[u8]) -> Option<Ip<'_>>
    ensures { option_map packet_seen result ≡ any_packet frame.now }
{
    let Ok(ether) = read_ether(frame) else {
        return None;
    };
    if ether.proto != IPV4 {
        return None;
    }
    match read_ip_unverified(ether.payload) {
        Ok(packet) => Some(packet),
        Err(_) => None,
    }
}

/// The packet of a frame from another station, with a right checksum of its header.
#[tactic(auto, unfolding(crate::specs::Frames::heard_packet))]
pub fn read_heard(station: Mac, frame: &[u8]) -> Option<Ip<'_>>
    ensures { option_map packet_seen result ≡ heard_packet station.0 frame.now }
{
    if is_sent(station, frame) {
        return None;
    }
    read_verified(frame)
}

/// The packet of a frame, with a right checksum of its header, whoever sent it.
pub fn read_verified(frame: &[u8]) -> Option<Ip<'_>>
    ensures { option_map packet_seen result ≡ verified_packet frame.now }
{
    let Ok(ether) = read_ether(frame) else {
        return None;
    };
    if ether.proto != IPV4 {
        return None;
    }
    match read_ip(ether.payload) {
        Ok(packet) => Some(packet),
        Err(_) => None,
    }
}

/// Whether a frame holds a fragment with a right checksum of its header.
pub fn holds_fragment(frame: &[u8]) -> bool
    ensures { result ≡ holds_fragment frame.now }
{
    match read_verified(frame) {
        Some(packet) => packet.mf || packet.place != 0,
        None => false,
    }
}

/// Whether a frame comes from this station; one too short for an Ethernet header comes from none.
pub fn is_sent(station: Mac, frame: &[u8]) -> bool
    ensures { result ≡ is_sent station.0 frame.now }
{
    match read_ether(frame) {
        Ok(ether) => ether.src == station,
        Err(_) => false,
    }
}
