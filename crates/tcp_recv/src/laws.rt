//! What holds of the definitions, for every peer and every network: each law is the contract of a function that does
//! nothing.
ghost use Rattle.std.specs.Prelude.{◌≡◌, ℕ, ◌^◌, ◌<◌, ◌≤◌, ◌++◌, List, [], length};
ghost use Rattle.std.specs.List.{AllByRecursion};
ghost use Rattle.tcp_recv.specs.Peer.{true_place, IsPart, Heard, board_after, IsFrontOf};
ghost use Rattle.tcp_recv.specs.Receiver.{Receiver, accepted_of, fresh, is_ended, untaken};
ghost use Rattle.tcp_recv.specs.Steps.{IsStepOf, StandsFor, Step, course_of};
ghost use Rattle.tcp_recv.specs.Stream.{Cut, front, is_over, place_of};

/// A cut of a peer's stream of fewer than 2^31 octets stands at its true place, whatever of the stream was accepted.
pub fn places_are_true()
    ensures { (irs seq accepted : ℕ) → (stream : List ℕ) → length stream < 2 ^ 31 → seq < 2 ^ 32
        → true_place irs seq ≤ length stream → accepted ≤ length stream
        → place_of irs accepted seq ≡ record { place = true_place irs seq; skipped = 0 } }
{}

/// Whatever cuts of a peer's stream are heard, in any order, what is accepted is a front of the stream, and the end is
/// reached only where it is the whole stream. Nothing is asked of order, loss or repetition.
pub fn accepted_is_front()
    ensures { (irs window : ℕ) → (stream : List ℕ) → (heard : List Heard) → length stream < 2 ^ 31
        → AllByRecursion (λ h. IsPart irs stream h.cut) heard
        → IsFrontOf stream (board_after irs window heard) }
{}

/// A receiver that stands for a list of cuts and takes tells what the definitions say of that list: how many octets are accepted,
/// whether the end is reached, and that what it gave, with what can be taken, is what was accepted.
pub fn receiver_tells()
    ensures begins { (irs room cap : ℕ) → StandsFor [] [] (fresh irs room cap) }
    ensures given { (steps : List Step) → (given : List ℕ) → (r : Receiver) → StandsFor steps given r
        → front (course_of r.irs r.cap steps).board.kept ≡ given ++ untaken r }
    ensures accepted { (steps : List Step) → (given : List ℕ) → (r : Receiver) → StandsFor steps given r
        → accepted_of r ≡ length (front (course_of r.irs r.cap steps).board.kept) }
    ensures ended { (steps : List Step) → (given : List ℕ) → (r : Receiver) → StandsFor steps given r
        → is_ended r ≡ is_over (course_of r.irs r.cap steps).board }
{}

/// The same front of the stream is accepted, however cuts and takes follow one another.
pub fn steps_give_front()
    ensures { (irs cap : ℕ) → (stream : List ℕ) → (steps : List Step) → length stream < 2 ^ 31
        → AllByRecursion (IsStepOf irs stream) steps → IsFrontOf stream (course_of irs cap steps).board }
{}
