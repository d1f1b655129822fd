//! What holds of a book after any list of acts, and of a driver after any list of calls: each law is the contract of a
//! function that does nothing.
ghost use Rattle.std.specs.Prelude.{◌≡◌, ℕ, ◌+◌, ◌≤◌, List, Some, false};
ghost use Rattle.efi_base.specs.declared.tokens.ChildId.{ChildId};
ghost use Rattle.efi_book.specs.Books.{Tokens, no_tokens_from};
ghost use Rattle.efi_book.specs.Acts.{Act, Stopped, after, runs, held, all_takes, given_out};
ghost use Rattle.efi_book.specs.Aborts.{Stops};
ghost use Rattle.efi_book.specs.Others.{aborts, aborted_ends};
ghost use Rattle.efi_book.specs.Cores.{Drive, start_from, id_of};
ghost use Rattle.efi_book.specs.Calls.{Call, called, all_called, all_acts, stopped_by, call_aborts};
ghost use Rattle.efi_book.specs.Serials.{bearers, all_gives, is_past};

/// Tickets are given out from the first on in the order of acceptance, and the token of each that was given out is pending,
/// ended or taken, once; no other is there.
pub fn each_token_is_once<T>()
    ensures { (n first : ℕ) (acts : List (Act T)) → first ≤ n
        → held n (runs (no_tokens_from first) acts) + all_takes n (no_tokens_from first) acts ≡ given_out n (runs (no_tokens_from first) acts) }
{}

/// A cancel of all, a reset or a destroy of a child ends exactly the tokens that are pending on it, by rising ticket, as
/// aborted.
pub fn a_stop_ends_the_childs_alone<T>()
    ensures { (first : ℕ) (acts : List (Act T)) (child : ChildId)
        → Stops first (runs (no_tokens_from first) acts) (after (runs (no_tokens_from first) acts) (Stopped child)) child }
{}

/// No act but a cancel, a stop, a withdrawal, or an end that is said to be an abort, brings an end as aborted.
pub fn nothing_else_aborts<T>()
    ensures { (s : Tokens T) (act : Act T) → aborts act ≡ false → aborted_ends (after s act) ≤ aborted_ends s }
{}

/// Over any list of calls of a core, what its book has become is what the acts of these calls leave.
pub fn calls_are_acts_of_the_book<C, W, M>()
    ensures { (s : Drive C W M) (calls : List (Call C W M)) → (all_called s calls).tokens ≡ runs s.tokens (all_acts calls) }
{}

/// A driver that is made of a core inherits: each of its tokens is pending, ended or taken, once.
pub fn a_drivers_token_is_once<C, W, M>()
    ensures { (own serial first n : ℕ) (calls : List (Call C W M)) → first ≤ n
        → held n (all_called (start_from own serial first) calls).tokens + all_takes n (no_tokens_from first) (all_acts calls)
        ≡ given_out n (all_called (start_from own serial first) calls).tokens }
{}

/// A driver that is made of a core inherits: a destroy, a reset or a cancel of all ends exactly the child's pending
/// tokens, by rising ticket, as aborted.
pub fn a_drivers_stop_ends_the_childs_alone<C, W, M>()
    ensures { (own serial first child : ℕ) (calls : List (Call C W M)) (call : Call C W M) → stopped_by call ≡ Some child
        → Stops first (all_called (start_from own serial first) calls).tokens (called (all_called (start_from own serial first) calls) call).tokens (id_of child) }
{}

/// A driver that is made of a core inherits: no other call brings an end as aborted.
pub fn nothing_else_aborts_in_a_driver<C, W, M>()
    ensures { (s : Drive C W M) (call : Call C W M) → call_aborts call ≡ false → aborted_ends (called s call).tokens ≤ aborted_ends s.tokens }
{}

/// A driver that is made of a core inherits: serials are given out by rising number from the first on, each once, to a
/// caller's child or to one of the stack's own; and no two live children have one serial, nor has a child one that
/// wasn't given out.
pub fn a_serial_is_once<C, W, M>()
    ensures given { (n own first ticket : ℕ) (calls : List (Call C W M)) → first ≤ n
        → all_gives n (start_from own first ticket) calls ≡ is_past n (all_called (start_from own first ticket) calls) }
    ensures borne { (n own first ticket : ℕ) (calls : List (Call C W M))
        → bearers n (all_called (start_from own first ticket) calls).family ≤ all_gives n (start_from own first ticket) calls }
{}
