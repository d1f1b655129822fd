//! The making of a frame in memory of its own. Its format is `wire_link`'s.
ghost use Rattle.std.specs.Prelude.{◌≡◌, ◌≤◌, length, IfOk};
ghost use Rattle.drv_mnp.specs.Frames.{frame_from};

use efi_base::{Bytes, Mac, NoMemory};
use std::alloc::Global;
use wire_link::{Ether, write_ether};

/// The octets of the longest payload of a frame.
pub const MOST_PAYLOAD: usize = 1_500;

/// The octets in front of the payload.
const HEADER: usize = 14;

/// The octets of the shortest frame, without its check sequence.
const LEAST: usize = 60;

/// The frame of this type with the payload, filled up with zeros to 60 octets.
pub(crate) fn make_frame(
    alloc: Global,
    dest: Mac,
    src: Mac,
    proto: u16,
    payload: &[u8],
) -> Result<Bytes, NoMemory>
    requires { length payload.now ≤ 1500 }
    ensures { IfOk result (λ frame. frame ≡ frame_from src.0 dest.0 proto payload.now) }
{
    let mut room = zeros(alloc, LEAST.max(HEADER + payload.len()))?;
    let frame = Ether {
        dest,
        src,
        proto,
        payload,
    };
    // The room is as long as the frame.
    write_ether(&frame, &mut room).unwrap();
    Ok(Bytes::from_vec(room))
}

fn zeros(alloc: Global, size: usize) -> Result<Vec<u8>, NoMemory>
    ensures { IfOk result (λ octets. length octets.items ≡ size) }
{
    match vec![in alloc; 0; size] {
        Ok(octets) => Ok(octets),
        Err(_) => Err(NoMemory),
    }
}
