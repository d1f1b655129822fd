//! The steps of captures, and the text that each is written in. What a step puts into a capture isn't here.
use crate::text::{first_number, pair_of, parsed_number, word_of};

/// What a record of a capture holds. Places count the octets of the peer's stream.
#[derive(Clone, Copy)]
pub(crate) enum Step<'a> {
    /// `ask`: the station asks for the connection. The checksums aren't filled in.
    Ask,
    /// `ask-in-fragments`: the same in fragments, a record each, with right checksums.
    AskInFragments,
    /// `ask-another`: the station asks for another connection, from the next port, to port 8080, with a number that is 1,000 later.
    AskAnother,
    /// `send`: the station sends octets.
    Send,
    /// `stray`: a frame with the station's address that is too short for a header.
    Stray,
    /// `record LENGTH`: the head of a record that tells this length, and nothing behind it.
    Record(u32),
    /// `wait TIME`: so many milliseconds pass.
    Wait(u32),
    /// `accept MORE`: the peer accepts the connection, and acknowledges so many numbers more than the station used.
    Accept(u32),
    /// `accept-at LATER`: the peer accepts it with a number that is so much later.
    AcceptAt(u32),
    /// `reset PLACE`: the peer resets the connection at this place.
    Reset(u32),
    /// `cut FROM TO` and others: the peer sends the stream's octets from the one place to the other.
    Part(Manner, u32, u32),
    /// `at PLACE OCTETS` and others: the peer sends a segment with these flags and octets at this place.
    Text(u8, u32, &'a str),
    /// `many PLACE COUNT OCTETS`: the peer sends these octets so many times.
    Many(u32, u32, &'a str),
    /// `header OCTET OPTIONS`: the peer sends the stream in a segment with this octet for the header's length, and these options.
    Header(u8, &'a str),
    /// `packet ZEROS PLACE OCTET ..`: the peer sends the stream in a packet whose header has these octets at these places, with so
    /// many zeros behind it.
    Packet(u32, &'a str),
    /// `more NUMBER FROM TO` and `end NUMBER FROM TO`: the peer sends a part of the segment that has the stream, in a fragment
    /// with this number; whether more come.
    Fragment(bool, u16, u32, u32),
    /// `flood-more NUMBER COUNT FROM TO` and `flood-end NUMBER COUNT FROM TO`: the same with an `x` in place of each octet, and with
    /// as many fragments, each with the next number.
    Flood(bool, u16, u16, &'a str),
}

/// How the peer sends a part of its stream.
#[derive(Clone, Copy)]
pub(crate) enum Manner {
    /// `cut`: as it is.
    Plain,
    /// `last`: the stream ends there.
    Last,
    /// `other`: with an `x` in place of each octet.
    Other,
    /// `damaged`: with a wrong checksum.
    Damaged,
    /// `in-fragments`: in fragments, a record each.
    InFragments,
    /// `from-elsewhere`: from another port.
    FromElsewhere,
    /// `accept-with`: with the answer that accepts the connection.
    Accepting,
}

pub(crate) const FIN: u8 = 1;

pub(crate) const SYN: u8 = 2;

pub(crate) const RST: u8 = 4;

pub(crate) const ACK: u8 = 16;

/// The step that a text tells.
pub(crate) fn step_of(text: &str) -> Option<Step<'_>> {
    if let Some(step) = bare_step(text) {
        return Some(step);
    }
    let (word, rest) = word_of(text);
    if let Some(manner) = manner_of(word) {
        let (from, to) = pair_of(rest)?;
        return Some(Step::Part(manner, from, to));
    }
    let (number, rest) = first_number(rest)?;
    if rest.is_empty() {
        return numbered_step(word, number);
    }
    if let Some(more) = flood_of(word) {
        return flood_step(more, number, rest);
    }
    if let Some(more) = fragment_of(word) {
        return fragment_step(more, number, rest);
    }
    worded_step(word, number, rest)
}

fn bare_step(text: &str) -> Option<Step<'static>> {
    match text {
        "ask" => Some(Step::Ask),
        "ask-in-fragments" => Some(Step::AskInFragments),
        "ask-another" => Some(Step::AskAnother),
        "send" => Some(Step::Send),
        "stray" => Some(Step::Stray),
        _ => None,
    }
}

fn manner_of(word: &str) -> Option<Manner> {
    match word {
        "cut" => Some(Manner::Plain),
        "last" => Some(Manner::Last),
        "other" => Some(Manner::Other),
        "damaged" => Some(Manner::Damaged),
        "in-fragments" => Some(Manner::InFragments),
        "from-elsewhere" => Some(Manner::FromElsewhere),
        "accept-with" => Some(Manner::Accepting),
        _ => None,
    }
}

/// The step of a word with one number and no more.
fn numbered_step(word: &str, number: u32) -> Option<Step<'static>> {
    match word {
        "record" => Some(Step::Record(number)),
        "wait" => Some(Step::Wait(number)),
        "accept" => Some(Step::Accept(number)),
        "accept-at" => Some(Step::AcceptAt(number)),
        "reset" => Some(Step::Reset(number)),
        "fin" => Some(Step::Text(FIN | ACK, number, "")),
        "packet" => Some(Step::Packet(number, "")),
        "header" => Some(Step::Header(low_octet(number)?, "")),
        _ => None,
    }
}

/// The step of a word with a number and a text.
fn worded_step<'a>(word: &str, number: u32, text: &'a str) -> Option<Step<'a>> {
    match word {
        "at" => Some(Step::Text(ACK, number, text)),
        "fin" => Some(Step::Text(FIN | ACK, number, text)),
        "syn" => Some(Step::Text(SYN | ACK, number, text)),
        "no-ack" => Some(Step::Text(0, number, text)),
        "packet" => Some(Step::Packet(number, text)),
        "header" => Some(Step::Header(low_octet(number)?, text)),
        "many" => many_step(number, text),
        _ => None,
    }
}

fn many_step(place: u32, text: &str) -> Option<Step<'_>> {
    let (count, octets) = first_number(text)?;
    Some(Step::Many(place, count, octets))
}

fn low_octet(number: u32) -> Option<u8> {
    if number < 256 {
        return Some(number as u8);
    }
    None
}

fn low_word(number: u32) -> Option<u16> {
    if number < 65_536 {
        return Some(number as u16);
    }
    None
}

/// Whether more fragments come, by the word for a fragment.
fn fragment_of(word: &str) -> Option<bool> {
    match word {
        "more" => Some(true),
        "end" => Some(false),
        _ => None,
    }
}

fn flood_of(word: &str) -> Option<bool> {
    match word {
        "flood-more" => Some(true),
        "flood-end" => Some(false),
        _ => None,
    }
}

fn fragment_step(more: bool, number: u32, rest: &str) -> Option<Step<'static>> {
    let (from, to) = pair_of(rest)?;
    Some(Step::Fragment(more, low_word(number)?, from, to))
}

fn flood_step(more: bool, number: u32, rest: &str) -> Option<Step<'_>> {
    let (count, places) = first_number(rest)?;
    Some(Step::Flood(more, low_word(number)?, low_word(count)?, places))
}
