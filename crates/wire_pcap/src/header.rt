//! The header of a capture, by whose first octets its form is known.
ghost use Rattle.std.specs.Prelude.{◌≡◌, true, false, IfSome, IfNone, length, take, drop};
ghost use Rattle.wire_pcap.specs.Grammar.{front_of, link_of};
ghost use Rattle.wire_pcap.specs.Marks.{Agree, HasMarks};

use crate::form::{Form, Order, Resolution};

/// Octets of a capture's header.
pub const HEADER_LEN: usize = 24;

/// Where the link type stands in it.
const LINK_AT: usize = 20;

/// The octets with which a capture of this form begins: the magic number and version 2.4.
fn front_of(form: Form) -> [u8; 8]
    ensures { result ≡ front_of form }
{
    match form.order {
        Order::Big => match form.resolution {
            Resolution::Micros => [0xA1, 0xB2, 0xC3, 0xD4, 0, 2, 0, 4],
            Resolution::Nanos => [0xA1, 0xB2, 0x3C, 0x4D, 0, 2, 0, 4],
        },
        Order::Little => match form.resolution {
            Resolution::Micros => [0xD4, 0xC3, 0xB2, 0xA1, 2, 0, 4, 0],
            Resolution::Nanos => [0x4D, 0x3C, 0xB2, 0xA1, 2, 0, 4, 0],
        },
    }
}

/// The link type of Ethernet.
fn link_of(form: Form) -> [u8; 4]
    ensures { result ≡ link_of form }
{
    match form.order {
        Order::Big => [0, 0, 0, 1],
        Order::Little => [1, 0, 0, 0],
    }
}

/// Whether the octets are those wanted, as far as both go.
fn agree(octets: &[u8], wanted: &[u8]) -> bool
    ensures right { result ≡ true → Agree octets.now wanted.now }
    ensures wrong { result ≡ false → Agree octets.now wanted.now → ⊥ }
{
    let len = octets.len().min(wanted.len());
    octets[..len] == wanted[..len]
}

/// Whether the octets are a header of this form, or may become one.
fn has_marks(form: Form, bytes: &[u8]) -> bool
    ensures right { result ≡ true → HasMarks form bytes.now }
    ensures wrong { result ≡ false → HasMarks form bytes.now → ⊥ }
{
    if !agree(bytes, &front_of(form)) {
        return false;
    }
    if bytes.len() <= LINK_AT {
        return true;
    }
    agree(&bytes[LINK_AT..], &link_of(form))
}

/// The form of the capture that begins with these octets.
pub fn form_of(bytes: &[u8]) -> Option<Form>
    ensures some { IfSome result (λ form. HasMarks form bytes.now) }
    ensures none { IfNone result ((form : Form) → HasMarks form bytes.now → ⊥) }
{
    let big_micros = Form {
        order: Order::Big,
        resolution: Resolution::Micros,
    };
    if has_marks(big_micros, bytes) {
        return Some(big_micros);
    }
    let big_nanos = Form {
        order: Order::Big,
        resolution: Resolution::Nanos,
    };
    if has_marks(big_nanos, bytes) {
        return Some(big_nanos);
    }
    let little_micros = Form {
        order: Order::Little,
        resolution: Resolution::Micros,
    };
    if has_marks(little_micros, bytes) {
        return Some(little_micros);
    }
    let little_nanos = Form {
        order: Order::Little,
        resolution: Resolution::Nanos,
    };
    if has_marks(little_nanos, bytes) {
        return Some(little_nanos);
    }
    None
}
