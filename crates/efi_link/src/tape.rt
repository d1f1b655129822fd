//! What a link in memory keeps: the frames that were tried, and those that are to come. Which sends fail isn't here.
ghost use Rattle.std.specs.Prelude.{◌≡◌, ◌+◌, ◌<◌, ◌≤◌, [], ◌∷◌, ◌++◌, All, length, take, drop, OnOk, OnErr, vec_len};
ghost use Rattle.efi_link.specs.Tapes.{IsFrame};
ghost use Rattle.efi_link.specs.Wires.{try_of};

use efi_base::{Bytes, NoMemory, Tick};
use std::alloc::Global;

/// A frame that was handed to a link: at which moment, and whether the link took it.
#[derive(Debug, Drop)]
pub struct Try {
    pub tick: Tick,
    pub frame: Bytes,
    pub taken: bool,
}

/// Puts a try behind the others, of the moment 0.
pub(crate) fn put_try(
    alloc: Global,
    tries: &mut Vec<Try>,
    frame: &[u8],
    taken: bool,
) -> Result<(), NoMemory>
    ensures ok { OnOk result (tries.new.items ≡ tries.old.items ++ try_of 0 frame.now taken ∷ []) }
    ensures err { OnErr result (tries.new.items ≡ tries.old.items) }
{
    let frame = Bytes::copy_of(alloc, frame)?;
    tries.reserve(1)?;
    tries.push_reserved(Try {
        tick: Tick(0),
        frame,
        taken,
    });
    Ok(())
}

/// Copies a frame to the front of the room, and answers its octets.
pub(crate) fn copy_frame(frame: &Bytes, room: &mut [u8]) -> usize
    requires { length frame.now ≤ length room.old }
    ensures count { result ≡ length frame.now }
    ensures copied { take result room.new ≡ frame.now }
    ensures len { length room.new ≡ length room.old }
{
    let count = frame.len();
    room[..count].copy_from_slice(frame.as_slice());
    count
}

/// The frame behind so many.
pub(crate) fn frame_at(frames: &Vec<Bytes>, given: usize) -> &Bytes
    requires within { given < vec_len frames.now }
    requires good { All IsFrame frames.now.items }
    ensures good { IsFrame result.now }
    ensures next { drop given frames.now.items ≡ result.now ∷ drop (given + 1) frames.now.items }
    ensures before { take (given + 1) frames.now.items ≡ take given frames.now.items ++ result.now ∷ [] }
{
    &frames[given]
}
