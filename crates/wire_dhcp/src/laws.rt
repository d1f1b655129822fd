//! What holds of the format, whoever reads or writes it: each law is the contract of a function that does nothing.
ghost use Rattle.std.specs.Prelude.{◌≡◌, ◌≤◌, ◌++◌, ℕ, List, length, true};
ghost use Rattle.efi_base.specs.declared.plain.Ip4.{Ip4};
ghost use Rattle.efi_base.specs.declared.plain.Mac.{Mac};
ghost use Rattle.wire_dhcp.specs.declared.granting.Grant.{Grant};
ghost use Rattle.wire_dhcp.specs.Granted.{grant_text};
ghost use Rattle.wire_dhcp.specs.Meaning.{AreFields, IsReadAs};
ghost use Rattle.wire_dhcp.specs.Options.{Item};
ghost use Rattle.wire_dhcp.specs.Sent.{discover_text, release_text, renewal_text, request_text};
ghost use Rattle.wire_dhcp.specs.Spelling.{can_write, dhcp_text};
ghost use Rattle.wire_dhcp.specs.declared.message.DhcpFixed.{DhcpFixed};

/// What `write_dhcp` writes of fields and options, `read_dhcp` reads as these, whatever stands behind.
pub fn written_message_is_read_again()
    ensures { (f : DhcpFixed) (items : List Item) (behind : List ℕ) → AreFields f → can_write f items ≡ true
        → IsReadAs (dhcp_text f items ++ behind) f items }
{}

/// A REQUEST of an offer has 310 octets, and each other message of a station 300.
pub fn messages_of_a_station_have_their_lengths()
    ensures discover { (mac : Mac) (xid : ℕ) → length mac.0 ≡ 6 → length (discover_text mac xid) ≡ 300 }
    ensures request { (mac : Mac) (xid : ℕ) (ip server : Ip4) → length mac.0 ≡ 6 → length (request_text mac xid ip server) ≡ 310 }
    ensures renewal { (mac : Mac) (xid : ℕ) (ip : Ip4) → length mac.0 ≡ 6 → length (renewal_text mac xid ip) ≡ 300 }
    ensures release { (mac : Mac) (xid : ℕ) (ip server : Ip4) → length mac.0 ≡ 6 → length (release_text mac xid ip server) ≡ 300 }
{}

/// An answer of a server, of at most three DNS servers and a URI of at most 255 octets, has at most 551.
pub fn answers_of_a_server_are_short()
    ensures { (kind : ℕ) (asked : DhcpFixed) (g : Grant) → length asked.mac.0 ≡ 6 → length g.dns.now ≤ 3 → length g.uri.now ≤ 255
        → length (grant_text kind asked g) ≤ 551 }
{}
