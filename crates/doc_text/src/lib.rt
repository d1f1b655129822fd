//! Texts of this project: the report that tells how a download went, and the trace of a script.
#![tactic(auto)]

// how a download ends, and the word that tells it
mod ends;
// what a report tells
mod report;
// what a trace tells
mod trace;
// the text of a trace
mod trace_text;
// the words of refusals and of tokens' ends
mod trace_words;
// the text of a report
mod writing;

pub use ends::{DownloadEnd, FileEnd, LoadWord};
pub use report::{Leased, Report};
pub use trace::{TraceEnd, TraceLine, TraceUnit};
pub use trace_text::trace_line;
pub use trace_words::{EndWord, RefuseWord};
pub use writing::report_text;

#[cfg(test)]
mod tests;
