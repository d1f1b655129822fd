//! What holds of reception and of a full cache: each law is the contract of a function that does nothing.
ghost use Rattle.std.specs.Prelude.{◌≡◌, ◌≢◌, ◌<◌, ◌≤◌, ℕ, List, length, get_or, Option, Some, None, true, false};
ghost use Rattle.efi_base.specs.declared.plain.Tick.{Tick as Moment};
ghost use Rattle.wire_link.specs.declared.resolution.Arp.{Arp as Packet};
ghost use Rattle.arp_cache.specs.declared.entry.Entry.{Entry as Item};
ghost use Rattle.arp_cache.specs.Entries.{mac_of, stalest, goes_before};
ghost use Rattle.arp_cache.specs.Caches.{has, after_heard, entered, add_refusal};

/// A sender that has an entry is known by the Ethernet address that was heard last, whatever the target.
pub fn known_sender_has_what_was_heard()
    ensures { (es : List Item) (m : Packet) (now : Moment) (life : Option ℕ) → has es m.spa.0 ≡ true
        → mac_of (after_heard es m now life) m.spa.0 ≡ Some m.sha }
{}

/// A packet to another station says nothing of addresses that aren't its sender's.
pub fn another_stations_packet_keeps_the_others()
    ensures { (es : List Item) (m : Packet) (now : Moment) (ip : ℕ) → ip ≢ m.spa.0 → mac_of (after_heard es m now None) ip ≡ mac_of es ip }
{}

/// The entry that goes first isn't fixed.
pub fn fixed_entries_stay()
    ensures { (es : List Item) (e : Item) → stalest es ≡ Some e → e.fixed ≡ false }
{}

/// An entry that a call isn't refused for what is there is found afterwards, also in a full cache.
pub fn entered_entry_is_found()
    ensures { (es : List Item) (e : Item) → length es ≤ 256 → add_refusal es e.ip.0 true ≡ None → mac_of (entered es e) e.ip.0 ≡ Some e.mac }
{}

/// No entry that isn't fixed was refreshed longer ago than the one that goes first, or at the same tick with a lower address.
pub fn none_goes_before_the_first()
    ensures { (es : List Item) (e other : Item) (i : ℕ) → stalest es ≡ Some e → i < length es → (get_or es i other).fixed ≡ false
        → goes_before (get_or es i other) e ≡ false }
{}
