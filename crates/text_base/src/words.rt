//! The words of a line: what separators part, mostly single spaces.
ghost use Rattle.std.specs.Prelude.{◌≡◌, ◌<◌, ◌==◌, IfSome, length, position};
ghost use Rattle.std.specs.Option.{option_copied};
ghost use Rattle.text_base.specs.Words.{front_of, rest_of};

/// Where the first separator stands.
pub fn place_of(text: &[u8], separator: u8) -> Option<usize>
    ensures place { result ≡ position (λ b. b == separator) text.now }
    ensures within { IfSome result (λ place. place < length text.now) }
{
    text.iter().position(|octet| *octet == separator)
}

/// The word in front of the first separator: the whole text where there is none.
pub fn front(text: &[u8], separator: u8) -> &[u8]
    ensures { result.now ≡ front_of separator text.now }
{
    match place_of(text, separator) {
        Some(place) => &text[..place],
        None => text,
    }
}

/// What stands behind the first separator, which may have further ones.
pub fn rest(text: &[u8], separator: u8) -> Option<&[u8]>
    ensures { option_copied result ≡ rest_of separator text.now }
{
    match place_of(text, separator) {
        Some(place) => Some(&text[place + 1..]),
        None => None,
    }
}
