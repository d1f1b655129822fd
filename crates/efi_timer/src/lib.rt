//! Moments by number, and the walk of a driver from one due moment to the next.
//!
//! A driver holds facts of the past, and a table says at which tick each fact is due, under a number that rises in the
//! order of asking. It keeps the rows of that table in `Timers`: `set` where a row comes, `clear` where one goes. Then
//! `next` is the table's least moment, and `due` gives the rows of one tick in the order of asking.
#![tactic(auto)]

// timers and a driver's table of ticks
mod laws;
// a moment for each number
mod timers;

pub use laws::{
    a_jump_is_the_ticks, clear_takes_the_row, next_is_the_least_row, set_gives_the_row,
    the_rest_is_quiet,
};
pub use timers::{Timer, Timers};
