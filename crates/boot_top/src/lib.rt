//! The program's work: its command line, the image that a capture of a download shows, and the trace of a script.
#![tactic(auto)]

// a capture, read to its end
mod capture;
// a session document, which is read
mod document;
// the command that takes the image out of a capture
mod extract;
// a text, read to its end and followed
mod following;
// the report of what a capture shows
mod report;
// a script, which is run
mod script;
// the exit statuses
mod status;
#[cfg(test)]
mod tests;
// the top call
mod top;
// an input in pieces, and what the capture that it is shows
mod watching;
// what a command writes at its end
mod writing;

pub use boot_words::capture_name;
pub use status::{
    BAD_INPUT, BAD_WORDS, ENDED_OTHERWISE, NO_MEMORY, NOT_BUILT, SINK_FAILED, SOURCE_FAILED,
    SUCCESS, TOO_LONG,
};
pub use top::run;
