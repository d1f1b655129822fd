//! Names in a message (RFC 1035, sections 3.1 and 4.1.4). A pointer leads strictly back, so that each name ends.
ghost use Rattle.std.specs.Prelude.{◌≡◌, ℕ, zero, ◌+◌, ◌<◌, ◌≤◌, ◌∷◌, ◌++◌, List, Option, length, drop, slice_index, false, IfOk, IfErr, IsTrue};
ghost use Rattle.efi_base.specs.Reads.{ReadsAs};
ghost use Rattle.wire_dns.specs.Names.{name_read, behind_name, spelled};
ghost use Rattle.wire_dns.specs.Parts.{IsPart, NoName, followed, tail_of};

use arrayvec::ArrayVec;
use efi_base::{Bad, Name, u16_at};

/// The first octet that is no label's length.
const LABELS_END: u8 = 64;

/// The least first octet of a pointer.
const POINTERS: u8 = 192;

/// How many places a pointer can lead to.
const PLACES: u16 = 16384;

/// The most octets of a name's labels with their lengths, but for the last zero.
const MOST_TEXT: usize = 254;

/// What stands in front of octets: the zero that ends a name, a label, or a pointer with the place where it leads.
#[derive(Clone, Copy)]
pub(crate) enum Part<'a> {
    End,
    Label(&'a [u8]),
    Pointer(usize),
}

/// How a run of labels ends: by a pointer, where it leads, or by a zero; and the place behind that.
#[derive(Clone, Copy)]
struct Run {
    pointer: Option<usize>,
    behind: usize,
}

/// Reads the name at this place, and answers it with the place behind it. Its labels are joined by dots; it is empty where
/// there are none.
pub fn read_name(msg: &[u8], at: usize) -> Result<(Name, usize), Bad>
    ensures reads { ReadsAs (λ r. r) result (name_read msg.now at) }
    ensures within { IfOk result (λ r. r.1 ≤ length msg.now) }
    ensures short { IfOk result (λ r. length r.0 ≤ 253) }
{
    let mut text = ArrayVec::<u8, MOST_TEXT>::new();
    let (mut pointer, behind) = match put_run(msg, at, &mut text) {
        Ok(run) => (run.pointer, run.behind),
        Err(bad) => return Err(bad),
    };
    let mut limit = at;
    while let Some(target) = pointer {
        if target >= limit {
            return Err(Bad);
        }
        match put_run(msg, target, &mut text) {
            Ok(run) => pointer = run.pointer,
            Err(bad) => return Err(bad),
        }
        limit = target;
    }
    Ok((without_dot(text.as_slice()), behind))
}

/// Puts the labels from this place on behind the text, a dot in front of each.
fn put_run(msg: &[u8], at: usize, text: &mut ArrayVec<u8, MOST_TEXT>) -> Result<Run, Bad>
    ensures put { IfOk result (λ run. (led : ℕ → Option (List ℕ)) → followed text.old.items (spelled led zero (drop at msg.now)) ≡ followed text.new.items (tail_of led run.pointer)) }
    ensures behind { IfOk result (λ run. run.behind ≡ behind_name msg.now at) }
    ensures within { IfOk result (λ run. run.behind ≤ length msg.now) }
    ensures bad { IfErr result (λ _. NoName text.old.items (drop at msg.now)) }
{
    let mut place = at;
    loop {
        match part_at(msg, place) {
            Some(Part::Label(label)) => {
                if !put_label(text, label) {
                    return Err(Bad);
                }
                place += 1 + label.len();
            }
            Some(Part::End) => {
                return Ok(Run {
                    pointer: None,
                    behind: place + 1,
                });
            }
            Some(Part::Pointer(target)) => {
                return Ok(Run {
                    pointer: Some(target),
                    behind: place + 2,
                });
            }
            None => return Err(Bad),
        }
    }
}

/// Puts a dot and the label behind the text. False where they don't fit.
fn put_label(text: &mut ArrayVec<u8, MOST_TEXT>, label: &[u8]) -> bool
    ensures put { IsTrue result → text.new.items ≡ text.old.items ++ (46 ∷ label.now) }
    ensures full { result ≡ false → MOST_TEXT < length text.old.items + (1 + length label.now) }
{
    match text.try_push(b'.') {
        Ok(()) => match text.try_extend_from_slice(label) {
            Ok(()) => true,
            Err(_) => false,
        },
        Err(_) => false,
    }
}

/// The name without the dot in front of its first label.
fn without_dot(text: &[u8]) -> Name
    requires { length text.now ≤ MOST_TEXT }
    ensures is { result ≡ drop 1 text.now }
    ensures short { length result ≤ 253 }
{
    if text.is_empty() {
        return Name::from_slice(text);
    }
    Name::from_slice(&text[1..])
}

/// What stands at this place.
fn part_at(msg: &[u8], place: usize) -> Option<Part<'_>>
    ensures { IsPart (drop place msg.now) result }
{
    if place > msg.len() {
        return None;
    }
    part_of(&msg[place..])
}

/// What stands in front of the octets.
fn part_of(octets: &[u8]) -> Option<Part<'_>>
    ensures { IsPart octets.now result }
{
    if octets.is_empty() {
        return None;
    }
    let first = octets[0];
    if first == 0 {
        return Some(Part::End);
    }
    if first < LABELS_END {
        return label_of(octets, first as usize);
    }
    if first < POINTERS || octets.len() < 2 {
        return None;
    }
    Some(Part::Pointer((u16_at(octets, 0) % PLACES) as usize))
}

/// The label of so many octets behind the first octet.
fn label_of(octets: &[u8], size: usize) -> Option<Part<'_>>
    requires there { 0 < length octets.now }
    requires size { slice_index octets.now 0 ≡ size }
    requires some { 0 < size }
    requires short { size < 64 }
    ensures { IsPart octets.now result }
{
    if octets.len() - 1 < size {
        return None;
    }
    Some(Part::Label(&octets[1..1 + size]))
}
