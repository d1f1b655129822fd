//! What holds of what a capture shows, for every list of records: each law is the contract of a function that does
//! nothing.
ghost use Rattle.std.specs.Prelude.{◌≡◌, ◌≤◌, ℕ, true, List, length, Option};
ghost use Rattle.efi_base.specs.declared.plain.Record.{Record};
ghost use Rattle.tcp_recv.specs.Peer.{IsFrontOf};
ghost use Rattle.tcp_recv.specs.Stream.{front, is_over};
ghost use Rattle.wire_http.specs.Response.{IsWhole};
ghost use Rattle.wire_l4.specs.Segment.{Segment};
ghost use Rattle.efi_base.specs.declared.load_end.LoadEnd.TheVariants.{Success};
ghost use Rattle.tap_core.specs.Openings.{Opening};
ghost use Rattle.tap_core.specs.Peers.{IsHonest, Succeeds};
ghost use Rattle.tap_core.specs.Shows.{Telling, Shows, HasConnection};

/// A capture shows one thing: of two tellings of the same records, each is the other.
pub fn shows_one_thing()
    ensures { (most : ℕ) → (records : List Record) → (t u : Telling) → Shows most records t → Shows most records u → t ≡ u }
{}

/// A capture shows something: there is none of which no telling is shown. (Which it is, a tap says; as a definition it isn't
/// computed, so the law is a double negation.)
pub fn shows_something()
    ensures { (most : ℕ) → (records : List Record) → ¬ ((t : Telling) → ¬ (Shows most records t)) }
{}

/// Success is shown of a connection exactly where a record of it succeeds, with as many octets as the body has.
pub fn succeeds_exactly()
    ensures { (most : ℕ) → (records : List Record) → (t : Telling) → (opening : Opening) → (irs place : ℕ) → (heard : List (Option Segment))
        → Shows most records t → HasConnection records opening irs place heard
        → ((s : Succeeds most irs heard) → t.end ≡ Success (length s.body)) × ((n : ℕ) → t.end ≡ Success n → Succeeds most irs heard) }
{}

/// What is told to be kept with a success holds a whole response, whose body has that many octets and fits the buffer.
pub fn success_has_body()
    ensures { (most : ℕ) → (records : List Record) → (t : Telling) → (n : ℕ) → Shows most records t → t.end ≡ Success n
        → (body : List ℕ) × IsWhole (front t.board.kept) (is_over t.board) 200 body × (n ≡ length body) × (length body ≤ most) }
{}

/// Where the peer is honest, the body with which a record succeeds is that of the peer's whole stream.
pub fn honest_body()
    ensures { (most irs : ℕ) → (stream : List ℕ) → (heard : List (Option Segment)) → IsHonest irs stream heard
        → (s : Succeeds most irs heard) → IsWhole stream true 200 s.body }
{}

/// What is told to be kept of an honest peer's stream is a front of it, and its end is told only where that is all of it.
pub fn honest_front()
    ensures { (most : ℕ) → (records : List Record) → (t : Telling) → (opening : Opening) → (irs place : ℕ) → (stream : List ℕ)
        → (heard : List (Option Segment)) → Shows most records t → HasConnection records opening irs place heard
        → IsHonest irs stream heard → IsFrontOf stream t.board }
{}

/// A whole response in what is told to be kept of an honest peer's stream is that of the whole stream.
pub fn honest_success()
    ensures { (most : ℕ) → (records : List Record) → (t : Telling) → (opening : Opening) → (irs place : ℕ) → (stream : List ℕ)
        → (heard : List (Option Segment)) → Shows most records t → HasConnection records opening irs place heard
        → IsHonest irs stream heard → (status : ℕ) → (body : List ℕ)
        → IsWhole (front t.board.kept) (is_over t.board) status body → IsWhole stream true status body }
{}
