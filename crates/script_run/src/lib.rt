//! A script run over the stack: each step is one event, and a trace tells what came of it. How scripts and traces are spelled
//! isn't here.
#![tactic(auto)]

// calls of the stack that a script's steps are
mod calls;
// lines that tell what came of an event
mod lines;
// the run of a script
mod runner;
// which steps the stack can do today
mod scope;

pub use runner::run_script;
pub use scope::are_built;
