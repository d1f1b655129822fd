//! What holds of the formats, whoever reads or writes them: each law is the contract of a function that does nothing.
ghost use Rattle.std.specs.Prelude.{◌≡◌};
ghost use Rattle.wire_link.specs.Arp.{reply, request};

use crate::resolution::{REPLY, REQUEST};

/// The operations have the numbers of RFC 826.
pub fn operations_have_their_numbers()
    ensures request { REQUEST ≡ request }
    ensures reply { REPLY ≡ reply }
{}
