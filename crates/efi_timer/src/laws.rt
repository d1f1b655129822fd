//! What a driver's timers and its table of ticks have to do with each other, and that ticks one by one are jumps from one
//! due moment to the next: each law is the contract of a function that does nothing.
ghost use Rattle.std.specs.Prelude.{◌≡◌, ℕ, ◌-◌, ◌<◌, ◌≤◌, Bool, true, List, Option, Some, IfSome, option_map, filter};
ghost use Rattle.efi_base.specs.declared.plain.Tick.{Tick as Moment};
ghost use Rattle.efi_timer.specs.declared.timers.Timer.{Timer as Entry};
ghost use Rattle.efi_timer.specs.Moments.{soonest, is_other, set_to};
ghost use Rattle.efi_timer.specs.Ticking.{ticks, IsTimed};
ghost use Rattle.efi_timer.specs.Rows.{AreRows, IsNext, with_row, without_row};

/// Timers that have the rows of a driver's table give its next moment: the least that has a row.
pub fn next_is_the_least_row()
    ensures { (ts : List Entry) (rows : ℕ → ℕ → Bool) (o : Option ℕ) → AreRows ts rows → IsNext rows o
        → option_map (λ (t : Entry). t.at.0) (soonest ts) ≡ o }
{}

/// `set` gives the number one row in place of those that it had.
pub fn set_gives_the_row()
    ensures { (ts : List Entry) (rows : ℕ → ℕ → Bool) (i : ℕ) (m : Moment) → AreRows ts rows → AreRows (set_to ts i m) (with_row rows i m.0) }
{}

/// `clear`, and `due` of the number that it gives, take the number's rows out.
pub fn clear_takes_the_row()
    ensures { (ts : List Entry) (rows : ℕ → ℕ → Bool) (i : ℕ) → AreRows ts rows → AreRows (filter (is_other i) ts) (without_row rows i) }
{}

/// A jump of a good machine with moments to its next due one leaves as many of the ticks as are to come, and fewer, with the
/// same end.
pub fn a_jump_is_the_ticks<S>()
    ensures { (moment : S → ℕ) (act at : ℕ → S → S) (next : S → Option ℕ) (good : S → Bool) → IsTimed moment act at next (λ s. good s ≡ true)
        → (s t : S) (m now : ℕ) → good s ≡ true → next s ≡ Some m → m ≤ now → t ≡ act m s
        → (moment t ≤ now) × (ticks moment act (now - moment t) t ≡ ticks moment act (now - moment s) s) × (now - moment t < now - moment s) }
{}

/// Where nothing is due any more up to now, the ticks that are left only bring the moment.
pub fn the_rest_is_quiet<S>()
    ensures { (moment : S → ℕ) (act at : ℕ → S → S) (next : S → Option ℕ) (good : S → Bool) → IsTimed moment act at next (λ s. good s ≡ true)
        → (s : S) (now : ℕ) → good s ≡ true → moment s ≤ now → IfSome (next s) (λ t. now < t) → ticks moment act (now - moment s) s ≡ at now s }
{}
