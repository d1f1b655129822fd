//! Names, kept in place, and which are names of hosts (RFC 1035, section 2.3.4).
ghost use Rattle.std.specs.Prelude.{◌≡◌, ◌≤◌, length};
ghost use Rattle.std.specs.List.{list_all};
ghost use Rattle.efi_base.specs.HostNames.{is_host_name, is_label, is_label_length, labels};

use arrayvec::ArrayVec;
use std::marker::Model;

/// The most octets of a name that is kept.
pub const MOST_NAME: usize = 255;

/// The most octets of a name of labels, with its dots.
const MOST_HOST_NAME: usize = 253;

/// The most octets of a label.
const MOST_LABEL: usize = 63;

/// A name of at most 255 octets (RFC 1035, section 2.3.4), kept in place.
#[derive(Debug, Drop)]
pub struct Name {
    octets: ArrayVec<u8, MOST_NAME>,
}

impl Model for Name {
    ghost use Rattle.std.specs.Prelude.{ℕ, List};

    ghost Value = { List ℕ };

    ghost view = { λ name. name.octets.items };
}

impl Name {
    /// A copy of the octets.
    pub fn from_slice(octets: &[u8]) -> Name
        requires { length octets.now ≤ MOST_NAME }
        ensures { result ≡ octets.now }
    {
        Name {
            octets: kept(octets),
        }
    }

    pub fn as_slice(&self) -> &[u8]
        ensures { result.now ≡ self.now }
    {
        self.octets.as_slice()
    }
}

fn kept(octets: &[u8]) -> ArrayVec<u8, MOST_NAME>
    requires { length octets.now ≤ MOST_NAME }
    ensures { result.items ≡ octets.now }
{
    let mut room = ArrayVec::new();
    match room.try_extend_from_slice(octets) {
        Ok(()) => room,
        Err(_) => unreachable!(),
    }
}

fn is_label_length(length: usize) -> bool
    ensures { result ≡ is_label_length length }
{
    length >= 1 && length <= MOST_LABEL
}

/// Whether the text is labels of 1 to 63 octets joined by dots, of at most 253 octets in all.
pub fn is_host_name(text: &[u8]) -> bool
    ensures { result ≡ is_host_name text.now }
{
    text.len() <= MOST_HOST_NAME && has_labels(text)
}

/// Whether what stands between the dots are labels.
fn has_labels(text: &[u8]) -> bool
    ensures { result ≡ list_all is_label (labels text.now) }
{
    let mut label = 0;
    for octet in text {
        if *octet != b'.' {
            label += 1;
            continue;
        }
        if !is_label_length(label) {
            return false;
        }
        label = 0;
    }
    is_label_length(label)
}
