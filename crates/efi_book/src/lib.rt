//! What every driver keeps: its children under handles, its book of tokens, each pending or ended once, and what it
//! asks of the layer below. The rules of single protocols aren't here.
#![tactic(auto)]

// tokens that are pending, and those that have ended
mod book;
// live children under handles
mod children;
// children, tokens and messages, as every driver has them
mod driver;
// single tokens, and where they go when they end
mod ends;
// what holds of a book over any list of acts, and of a driver over any list of calls
mod laws;
// messages for the layer below
mod outbox;
// children in slots under keys
mod table;

pub use book::Book;
pub use children::{CHILDREN, Child, Children, Handle, OWN_CHILDREN};
pub use driver::Core;
pub use ends::{Done, Kinded, Pending, Raised, TOKENS};
pub use laws::{
    a_drivers_stop_ends_the_childs_alone, a_drivers_token_is_once, a_serial_is_once,
    a_stop_ends_the_childs_alone, calls_are_acts_of_the_book, each_token_is_once,
    nothing_else_aborts, nothing_else_aborts_in_a_driver,
};
pub use outbox::Outbox;
