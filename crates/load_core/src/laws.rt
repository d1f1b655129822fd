//! What holds of the cases, for every stream: each law is the contract of a function that does nothing.
ghost use Rattle.std.specs.Prelude.{◌≡◌, ℕ, Bool, List};
ghost use Rattle.load_core.specs.Cases.{Meets, order};

use efi_base::LoadEnd;

/// A stream meets at most one case of each kind: one length of the body, one part that is bad, one status, one coding, one
/// length over the buffer, one length of the stream.
pub fn case_is_one()
    ensures { (most : ℕ) → (stream : List ℕ) → (fin reset : Bool) → (a b : LoadEnd) → Meets most stream fin reset a
        → Meets most stream fin reset b → order a ≡ order b → a ≡ b }
{}
