//! Names of stations in a text (RFC 1123, section 2.1, but for hyphens at the ends of labels).
ghost use Rattle.std.specs.Prelude.{◌≡◌};
ghost use Rattle.std.specs.List.{list_all};
ghost use Rattle.text_base.specs.Names.{is_name, is_name_octet};

use efi_base::is_host_name;

fn is_name_octet(octet: u8) -> bool
    ensures { result ≡ is_name_octet octet }
{
    (octet >= b'a' && octet <= b'z')
        || (octet >= b'A' && octet <= b'Z')
        || octet.is_ascii_digit()
        || octet == b'-'
        || octet == b'.'
}

fn are_name_octets(text: &[u8]) -> bool
    ensures { result ≡ list_all is_name_octet text.now }
{
    text.iter().all(|octet| is_name_octet(*octet))
}

/// Whether the text is a name: labels of letters, digits and hyphens that dots join.
pub fn is_name(text: &[u8]) -> bool
    ensures { result ≡ is_name text.now }
{
    is_host_name(text) && are_name_octets(text)
}
