//! Tokens that have ended, as callers take them.
ghost use Rattle.std.specs.Prelude.{◌≡◌};
ghost use Rattle.efi_stack.specs.Fires.{first_fired, without_fired};
ghost use Rattle.efi_stack.specs.Stacks.{moment_of};
ghost use Rattle.efi_stack.specs.Traces.{IsStep, Took};

use crate::any::Fired;
use crate::stack::Stack;
use crate::{on_arp, on_mnp};

impl Stack {
    /// The token that ended first, of the lowest driver that has one. It takes no memory.
    pub fn take_fired(&mut self) -> Option<Fired>
        ensures first { result ≡ first_fired self.old }
        ensures rest { self.new ≡ without_fired self.old }
        ensures moment { moment_of self.new ≡ moment_of self.old }
        ensures step { IsStep self.old (Took result) self.new }
    {
        if let Some(d) = self.mnp.take_done() {
            return Some(on_mnp::shown(d));
        }
        if let Some(d) = self.arp.take_done() {
            return Some(on_arp::shown(d));
        }
        None
    }
}
