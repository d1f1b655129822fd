//! The words of the command line, and what they ask for.
#![tactic(auto)]

// the file that the capture goes to
mod capture;
// what holds of the definitions
mod laws;
// command lines
mod line;
// numbers and addresses in words
mod numbers;
// the options of each command
mod options;
// the program's arguments, as the crate that reads them wants them
mod program;
// what is asked for
mod task;
#[cfg(test)]
mod tests;

pub use capture::capture_name;
pub use laws::{lines_are_of_the_grammar, parts_are_read};
pub use line::{WordsFault, read_words};
pub use task::{Emit, ExtractTask, MakeTask, ReplayTask, Task};
