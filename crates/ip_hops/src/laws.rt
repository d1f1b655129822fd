//! What holds of messages and rounds over any list of acts, and of the ticks that come: each law is the contract of a
//! function that does nothing.
ghost use Rattle.std.specs.Prelude.{◌≡◌, ℕ, ◌+◌, List, cond};
ghost use Rattle.efi_base.specs.declared.plain.Ip4.{Ip4 as Address};
ghost use Rattle.efi_timer.specs.Ticking.{IsTimed};
ghost use Rattle.ip_hops.specs.declared.wait.Wait.{Wait as Waiting};
ghost use Rattle.ip_hops.specs.Unresolved.{Unresolved, nothing_waits, acted, at, moment_of, next_of};
ghost use Rattle.ip_hops.specs.Acts.{Act, Pass, after, runs, IsSound, weight, all_come, all_leave, asks_for, hop_asks_again};

/// The moments that `next` tells are those at which something is due: between them only time passes.
pub fn only_next_moments_count<M>()
    ensures { IsTimed {S = Unresolved M} moment_of acted at next_of (λ s. Unit {0}) }
{}

/// Throughout, each next hop has one round, which is less than three seconds old, each message that waits has a round, and
/// at most 16 wait for a next hop.
pub fn rounds_and_messages_are_sound<M>()
    ensures { (acts : List (Act M)) → IsSound (runs nothing_waits acts) }
{}

/// Whatever messages are told apart by: those that came to wait are those that left, each once, and those that are here.
pub fn each_message_leaves_once<M>()
    ensures { (weigh : Waiting M → ℕ) (acts : List (Act M))
        → weight weigh (runs nothing_waits acts) + all_leave weigh nothing_waits acts ≡ all_come weigh nothing_waits acts }
{}

/// A tick brings one request for a next hop where its round began a second ago or two, and else none.
pub fn requests_go_by_the_second<M>()
    ensures { (acts : List (Act M)) (hop : Address)
        → asks_for hop (after (runs nothing_waits acts) Pass).asks
        ≡ asks_for hop (runs nothing_waits acts).asks + cond (hop_asks_again ((runs nothing_waits acts).moment + 1) (runs nothing_waits acts).rounds hop) 1 0 }
{}
