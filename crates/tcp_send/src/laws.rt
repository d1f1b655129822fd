//! What holds of the definitions, for every list of calls: each law is the contract of a function that does nothing.
ghost use Rattle.std.specs.Prelude.{◌≡◌, ℕ, ◌+◌, ◌^◌, ◌<◌, List, [], ◌∷◌, true, false, IfSome, None, Some, map, slice_get};
ghost use Rattle.std.specs.List.{AllByRecursion};
ghost use Rattle.efi_base.specs.declared.plain.Tick.{Tick};
ghost use Rattle.tcp_send.specs.declared.flight.Segment.{Segment};
ghost use Rattle.tcp_send.specs.Numbers.{number_of};
ghost use Rattle.tcp_send.specs.Rows.{row_at};
ghost use Rattle.tcp_send.specs.Sender.{Sender, sent_of, cut_at, cut_now, after_now, passed_of, is_open, is_due, next_tick, ahead_of};
ghost use Rattle.tcp_send.specs.Ticks.{IsOver};
ghost use Rattle.tcp_send.specs.Calls.{Call, IsCall, IsCourse, course_of};

/// After any list of calls each segment that was given is a true cut of what was pushed, at most 8 are in flight, and
/// SND.UNA stands for the greatest place that was acknowledged.
pub fn calls_give_true_cuts()
    ensures { (iss : ℕ) → (calls : List Call) → AllByRecursion IsCall calls → IsCourse (course_of iss calls) }
{}

/// Where the rows stand: those of a segment, and the ends of a segment and of a SYN.
pub fn rows_double()
    ensures segment { map row_at (0 ∷ 1 ∷ 2 ∷ 3 ∷ 4 ∷ 5 ∷ 6 ∷ 7 ∷ []) ≡ 1000 ∷ 3000 ∷ 7000 ∷ 15000 ∷ 23000 ∷ 31000 ∷ 39000 ∷ 47000 ∷ [] }
    ensures segment_end { row_at 8 ≡ 55000 }
    ensures syn_end { row_at 5 ≡ 31000 }
{}

/// A segment goes again at the rows and nowhere else: at a row the oldest one, as it was first cut; apart from rows only
/// what wasn't sent.
pub fn segments_go_again_at_rows()
    ensures again { (s : Sender) → (now : Tick) → (oldest : Segment) → is_open s ≡ true → is_due s now ≡ true → passed_of s.backoff < 8
        → slice_get s.flight 0 ≡ Some oldest → cut_now s now ≡ Some (cut_at s s.base oldest) }
    ensures new { (s : Sender) → (now : Tick) → is_due s now ≡ false → IfSome (cut_now s now) (λ c. c.place ≡ sent_of s) }
{}

/// An event is over once no segment went. Ticks before the next one that is told then change nothing, and at that one a
/// row is due.
pub fn ticks_are_quiet()
    ensures over { (s : Sender) → (now : Tick) → cut_now s now ≡ None → is_open (after_now s now) ≡ true → IsOver (after_now s now) }
    ensures due { (s : Sender) → (at : Tick) → is_open s ≡ true → next_tick s ≡ Some at → is_due s at ≡ true }
    ensures cut { (s : Sender) → (now : Tick) → now.0 < 2 ^ 64 → IsOver s → is_open s ≡ true → IfSome (next_tick s) (λ t. now.0 < t.0)
        → cut_now s now ≡ None }
    ensures sender { (s : Sender) → (now : Tick) → now.0 < 2 ^ 64 → IsOver s → is_open s ≡ true → IfSome (next_tick s) (λ t. now.0 < t.0)
        → after_now s now ≡ s }
{}

/// The place that an acknowledgment names, from SND.UNA on, has its number.
pub fn acknowledgments_name_places()
    ensures { (s : Sender) → (ack : ℕ) → ack < 2 ^ 32 → number_of s.iss (s.una + ahead_of s ack) ≡ ack }
{}
