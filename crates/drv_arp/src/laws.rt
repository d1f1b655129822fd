//! What holds of the moments of a request: the law is the contract of a function that does nothing.
ghost use Rattle.std.specs.Prelude.{◌≡◌, ℕ, ◌+◌, ◌*◌, ◌≤◌, true};
ghost use Rattle.efi_base.specs.declared.plain.Tick.{Tick as Moment};
ghost use Rattle.drv_arp.specs.declared.asks.ArpCfg.{ArpCfg as Settings};
ghost use Rattle.drv_arp.specs.declared.asks.ArpWork.{ArpWork as Asked};
ghost use Rattle.drv_arp.specs.Asks.{IsGapAfter, ask_of, ends, is_due};

/// For a request that is asked at a moment something is due one gap later, two gaps later, and so on, as often as it has
/// tries, and never else; and it ends at the last of these moments.
pub fn a_request_goes_each_gap()
    ensures due { (now : Moment) (c : Settings) (w : Asked) (k : ℕ) → 1 ≤ k → k ≤ c.tries → is_due (now.0 + k * c.gap) (ask_of now c w) ≡ true }
    ensures only { (now : Moment) (c : Settings) (w : Asked) (m : ℕ) → is_due m (ask_of now c w) ≡ true → IsGapAfter now.0 c.gap c.tries m }
    ensures last { (now : Moment) (c : Settings) (w : Asked) → ends (now.0 + c.tries * c.gap) (ask_of now c w) ≡ true }
    ensures ends { (now : Moment) (c : Settings) (w : Asked) (m : ℕ) → ends m (ask_of now c w) ≡ true → m ≡ now.0 + c.tries * c.gap }
{}
