//! Texts of lines, read in whatever pieces they come. What a line means is told by the text's own kind.
ghost use Rattle.std.specs.Prelude.{◌≡◌, ◌+◌, ◌^◌, ◌<◌, ◌≤◌, ℕ, Bool, List, Option, Some, None, [], Ok, drop, IfOk, MatchBool, MatchOption, MatchResult, true, length};
ghost use Rattle.text_base.specs.Lines.{IsCause, IsLine, IsPart, ReadsPiece, ReadsTo, at_end, is_plain, read_on};
ghost use Rattle.std.specs.List.{list_all};

use crate::words::place_of;
use efi_base::NoMemory;

/// The most octets of a line, its LF not among them.
pub const LINE_MAX: usize = 65_536;

/// Why a text isn't read.
#[derive(Clone, Copy, PartialEq, Eq, Debug)]
pub enum TextFault {
    /// The line that begins at this octet is the first bad one, or the text ends there and its last line is missing.
    BadAt(u64),
    /// There was no memory for the work.
    OutOfResources,
}

/// What the lines of a text say, a line at a time.
pub trait Said {
    /// What is said behind one line more: none where the line is bad.
    ghost next: { Self → List ℕ → Option Self };

    /// Whether the last line was read.
    ghost ended: { Self → Bool };

    fn is_ended(&self) -> bool
        ensures { result ≡ ended self.now };

    /// Reads a line, which has no LF. Whether it is good.
    fn read(&mut self, line: &[u8]) -> Result<bool, NoMemory>
        ensures { IfOk result (λ good. MatchBool good (next self.old line.now ≡ Some self.new) (next self.old line.now ≡ None)) };
}

/// How many octets stand in front of the first LF from this place on.
fn line_length(octets: &[u8], start: usize) -> Option<usize>
    requires { start ≤ length octets.now }
    ensures { MatchOption result (list_all is_plain (drop start octets.now) ≡ true) (λ i. IsLine (drop start octets.now) i) }
{
    let rest = &octets[start..];
    place_of(rest, b'\n')
}

/// Reads the whole lines of octets that stand at this place of the text, and says where what isn't a line yet begins.
fn read_lines<S: Said>(said: &mut S, octets: &[u8], at: u64) -> Result<usize, TextFault>
    requires { at + length octets.now < 2 ^ 64 }
    ensures { MatchResult result (λ used. ReadsTo S.next said.old said.new at octets.now used)
        (λ e. IsCause (read_on S.next (record { said = said.old; at = at; rest = [] }) octets.now) e) }
{
    let mut start = 0;
    while let Some(length) = line_length(octets, start) {
        let bad = TextFault::BadAt(at + start as u64);
        if length > LINE_MAX {
            return Err(bad);
        }
        match said.read(&octets[start..start + length]) {
            Ok(true) => {}
            Ok(false) => return Err(bad),
            Err(NoMemory) => return Err(TextFault::OutOfResources),
        }
        start += length + 1;
    }
    if octets.len() - start > LINE_MAX {
        return Err(TextFault::BadAt(at + start as u64));
    }
    Ok(start)
}

/// Removes the first octets.
fn drop_front(octets: &mut Vec<u8>, count: usize)
    requires { count ≤ length octets.old.items }
    ensures { octets.new.items ≡ drop count octets.old.items }
{
    let left = octets.len() - count;
    octets.rotate_left(count);
    octets.truncate(left);
}

/// Reads a piece behind octets that were kept, which are less than a line, and keeps what isn't a line yet. It answers
/// where that begins. Where the text is longer than a place can tell, there is no room for it.
pub fn read_piece<S: Said>(
    said: &mut S,
    kept: &mut Vec<u8>,
    piece: &[u8],
    at: u64,
) -> Result<u64, TextFault>
    requires { IsPart kept.old.items }
    ensures { MatchResult result (λ to. ReadsPiece S.next said.old said.new at to kept.old.items kept.new.items piece.now)
        (λ e. IsCause (read_on S.next (record { said = said.old; at = at; rest = kept.old.items }) piece.now) e) }
{
    let Ok(()) = kept.extend_from_slice(piece) else {
        return Err(TextFault::OutOfResources);
    };
    let Some(_) = at.checked_add(kept.len() as u64) else {
        return Err(TextFault::OutOfResources);
    };
    match read_lines(said, kept.as_slice(), at) {
        Ok(used) => {
            drop_front(kept, used);
            Ok(at + used as u64)
        }
        Err(fault) => Err(fault),
    }
}

/// Reads what stands behind the last LF of a whole text: nothing, or the last line.
pub fn read_end<S: Said>(said: &mut S, rest: &[u8], at: u64) -> Result<(), TextFault>
    requires { at + length rest.now < 2 ^ 64 }
    ensures { MatchResult result (λ _. at_end S.next S.ended (record { said = said.old; at = at; rest = rest.now }) ≡ Ok said.new)
        (λ e. IsCause (at_end S.next S.ended (record { said = said.old; at = at; rest = rest.now })) e) }
{
    if said.is_ended() {
        if rest.is_empty() {
            return Ok(());
        }
        return Err(TextFault::BadAt(at));
    }
    if rest != b"end".as_slice() {
        return Err(TextFault::BadAt(at + rest.len() as u64));
    }
    match said.read(rest) {
        Ok(true) => Ok(()),
        Ok(false) => Err(TextFault::BadAt(at)),
        Err(NoMemory) => Err(TextFault::OutOfResources),
    }
}
