//! The cases in which a stream ends a load, and which of them comes first.
ghost use Rattle.std.specs.Prelude.{◌≡◌};
ghost use Rattle.load_core.specs.Taken.{length_by, case_by_length, case_by_coding, case_by_head, case_of, case_without};

use efi_base::{CodingField, LoadEnd};
use wire_http::{BodyState, Framing, HeadInfo};

/// The status of a response that has what was asked for (RFC 9110, section 15.3.1).
pub const OK: u16 = 200;

/// The length that the framing states, or how many octets of the body came.
pub fn length_by(framing: Framing, count: u64) -> u64
    ensures { result ≡ length_by framing count }
{
    match framing {
        Framing::Length(stated) => stated,
        _ => count,
    }
}

/// The case where the response has none yet: the stream ended at this length, or the peer reset the connection.
pub fn case_without(fin: bool, taken: u64, reset: bool) -> Option<LoadEnd>
    ensures { result ≡ case_without fin taken reset }
{
    if fin {
        return Some(LoadEnd::Truncated(taken));
    }
    if reset {
        return Some(LoadEnd::Reset);
    }
    None
}

fn case_by_length(len: u64, most: u32, otherwise: Option<LoadEnd>) -> Option<LoadEnd>
    ensures { result ≡ case_by_length len most otherwise }
{
    if len > u64::from(most) {
        return Some(LoadEnd::BufferTooSmall(len));
    }
    otherwise
}

fn case_by_coding(
    coding: Option<CodingField>,
    len: u64,
    most: u32,
    otherwise: Option<LoadEnd>,
) -> Option<LoadEnd>
    ensures { result ≡ case_by_coding coding len most otherwise }
{
    match coding {
        Some(field) => Some(LoadEnd::Coding(field)),
        None => case_by_length(len, most, otherwise),
    }
}

/// The case that the final head and the length of its body tell, or the other one.
fn case_by_head(info: HeadInfo, len: u64, most: u32, otherwise: Option<LoadEnd>) -> Option<LoadEnd>
    ensures { result ≡ case_by_head info len most otherwise }
{
    if info.status == OK {
        return case_by_coding(info.coding, len, most, otherwise);
    }
    Some(LoadEnd::HttpStatus(info.status))
}

/// The first case behind a final head, by how far the body is and how many octets of it came.
pub fn case_of(
    state: BodyState,
    info: HeadInfo,
    count: u64,
    most: u32,
    otherwise: Option<LoadEnd>,
) -> Option<LoadEnd>
    ensures { result ≡ case_of state info count most otherwise }
{
    let len = length_by(info.framing, count);
    match state {
        BodyState::More => case_by_head(info, len, most, otherwise),
        BodyState::Whole => case_by_head(info, len, most, Some(LoadEnd::Success(count))),
        BodyState::Bad(part) => Some(LoadEnd::BadResponse(part)),
    }
}
