//! What holds of the stack over any list of events: the law is the contract of a function that does nothing.
ghost use Rattle.std.specs.Prelude.{◌≡◌, ℕ, ◌+◌, List};
ghost use Rattle.efi_base.specs.declared.plain.Mac.{Mac as Address};
ghost use Rattle.efi_stack.specs.declared.stack.Stack.{Stack as Station};
ghost use Rattle.efi_stack.specs.Stacks.{new_stack, owned};
ghost use Rattle.efi_stack.specs.Traces.{Event, Runs, given_back, once, users};

/// Whatever happens, tokens are numbered 1, 2, 3 in the order of acceptance, and each accepted token is in the stack, pending or
/// ended, or was given back, once; no other ever is.
pub fn each_token_is_here_or_was_given_back_once()
    ensures { (mac : Address) (events : List Event) (later : Station) → Runs (new_stack mac) events later
        → (n : ℕ) → owned (users n) later + given_back n events ≡ once n later.next }
{}
