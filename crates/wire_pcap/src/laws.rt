//! What holds of the definitions: each law is the contract of a function that does nothing.
ghost use Rattle.std.specs.Prelude.{◌≡◌, ◌++◌, ℕ, List, map};
ghost use Rattle.std.specs.List.{AllByRecursion};
ghost use Rattle.efi_base.specs.declared.plain.Record.{Record};
ghost use Rattle.wire_pcap.specs.Grammar.{IsCapture, little_micros};
ghost use Rattle.wire_pcap.specs.Place.{IsThePlace, NeverCapture};
ghost use Rattle.wire_pcap.specs.Reading.{IsWhole};
ghost use Rattle.wire_pcap.specs.Ticks.{RiseFrom};
ghost use Rattle.wire_pcap.specs.Written.{Fits, capture_text, stored_of};

/// Octets are a capture of one list of records at most: behind those that were given, no others can be ready.
pub fn records_are_one()
    ensures { (bytes : List ℕ) (given a b : List Record) → IsWhole bytes given a → IsWhole bytes given b → a ≡ b }
{}

/// Octets that no others make a capture have their bad place for ever: whatever is read behind them, it is the same.
pub fn bad_places_stay()
    ensures { (bytes more : List ℕ) (n : ℕ) → IsThePlace bytes n → NeverCapture bytes → IsThePlace (bytes ++ more) n }
{}

/// A header that was written, and behind it records that fit, are a capture of these records.
pub fn written_records_are_a_capture()
    ensures { (records : List Record) → AllByRecursion Fits records → IsCapture little_micros (capture_text records) (map stored_of records) }
{}

/// The ticks of a capture's records never fall, and each is below 2^43: the last second of 32 bits, in milliseconds.
pub fn ticks_rise()
    ensures { (bytes : List ℕ) (given ready : List Record) → IsWhole bytes given ready → RiseFrom 0 (given ++ ready) }
{}
