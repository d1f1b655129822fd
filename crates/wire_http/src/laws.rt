//! What holds of the definitions of a response, for every stream: each law is the contract of a function that does
//! nothing.
ghost use Rattle.std.specs.Prelude.{◌≡◌, ℕ, Bool, true, List, [], ◌++◌};
ghost use Rattle.wire_http.specs.Response.{IsWhole, IsBodySoFar, IsBad};

use efi_base::Part;

/// A stream holds at most one whole response.
pub fn whole_is_one()
    ensures { (stream a b : List ℕ) → (fin : Bool) → (s t : ℕ) → IsWhole stream fin s a → IsWhole stream fin t b
        → (s ≡ t) × (a ≡ b) }
{}

/// A whole response stays the same when the stream grows, and when it ends. One that goes on until the stream's end is
/// whole only there, where nothing follows.
pub fn whole_stays()
    ensures { (stream more body : List ℕ) → (fin later : Bool) → (status : ℕ) → IsWhole stream fin status body
        → (fin ≡ true → (more ≡ []) × (later ≡ true)) → IsWhole (stream ++ more) later status body }
{}

/// A whole response of a stream's front is the whole response of the stream at its end: what is told of the front is that
/// it goes on, or it is all of the stream.
pub fn whole_front_is_whole()
    ensures { (front more stream body : List ℕ) → (fin : Bool) → (status : ℕ) → stream ≡ front ++ more
        → (fin ≡ true → front ≡ stream) → IsWhole front fin status body → IsWhole stream true status body }
{}

/// A stream fixes one list of octets of a body.
pub fn body_so_far_is_one()
    ensures { (stream a b : List ℕ) → IsBodySoFar stream a → IsBodySoFar stream b → a ≡ b }
{}

/// The body of a whole response is what the stream fixes of it.
pub fn whole_is_so_far()
    ensures { (stream body : List ℕ) → (fin : Bool) → (status : ℕ) → IsWhole stream fin status body → IsBodySoFar stream body }
{}

/// A stream that holds a whole response isn't bad.
pub fn whole_is_not_bad()
    ensures { (stream body : List ℕ) → (fin : Bool) → (status : ℕ) → (bad : Part) → IsWhole stream fin status body
        → ¬ (IsBad stream bad) }
{}

/// A stream is bad at one part.
pub fn bad_is_one()
    ensures { (stream : List ℕ) → (a b : Part) → IsBad stream a → IsBad stream b → a ≡ b }
{}
