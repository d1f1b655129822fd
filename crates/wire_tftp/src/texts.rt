//! Texts: octets other than zero, ended by a zero (RFC 1350, section 5). What they say isn't here.
ghost use Rattle.std.specs.Prelude.{◌≡◌, ◌≢◌, ◌+◌, ◌<◌, ◌≤◌, ◌∷◌, ◌++◌, None, ℕ, drop, length, slice_index, IfSome, IfNone};
ghost use Rattle.std.specs.Option.{option_map};
ghost use Rattle.wire_tftp.specs.Texts.{is_text, texts_of, ended};

/// Whether no octet is zero, so that the octets can be sent as a text.
pub fn is_text(octets: &[u8]) -> bool
    ensures { result ≡ is_text octets.now }
{
    zero_at(octets) == octets.len()
}

/// The place of the first zero, or the length.
fn zero_at(octets: &[u8]) -> usize
    ensures within { result ≤ length octets.now }
    ensures before { (k : ℕ) → k < result → slice_index octets.now k ≢ 0 }
    ensures at { result < length octets.now → slice_index octets.now result ≡ 0 }
{
    for (i, octet) in octets.iter().enumerate() {
        if *octet == 0 {
            return i;
        }
    }
    octets.len()
}

/// The text in front, and the octets behind its zero. None where there is no zero.
pub(crate) fn split_text(octets: &[u8]) -> Option<(&[u8], &[u8])>
    ensures some { IfSome result (λ found. texts_of octets.now ≡ option_map (λ texts. found.0.now ∷ texts) (texts_of found.1.now)) }
    ensures shorter { IfSome result (λ found. length found.1.now < length octets.now) }
    ensures none { IfNone result (0 < length octets.now → texts_of octets.now ≡ None) }
{
    let end = zero_at(octets);
    if end == octets.len() {
        return None;
    }
    Some((&octets[..end], &octets[end + 1..]))
}

/// Writes a text with its zero to the front of the room, and answers how many octets they are.
pub(crate) fn put_text(text: &[u8], room: &mut [u8]) -> usize
    requires { length text.now < length room.old }
    ensures len { result ≡ length (ended text.now) }
    ensures bound { result ≡ length text.now + 1 }
    ensures text { room.new ≡ ended text.now ++ drop (length (ended text.now)) room.old }
{
    let end = text.len();
    room[..end].copy_from_slice(text);
    room[end] = 0;
    end + 1
}
