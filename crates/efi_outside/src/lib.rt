//! The outside: from where octets come and to which they go. Here are the traits, the objects in memory, and the system's
//! edge; frames and links aren't here yet.
#![tactic(auto)]

// why an object of the outside gave or took nothing
mod fault;
// reading a source to its end
mod intake;
// sources and sinks in memory
mod memory;
// what gives octets and what takes them
mod outside;
// which calls of an object in memory are to fail
mod plan;
// the trusted edge: standard input and output, and files
mod system;

pub use fault::{Failed, Miss};
pub use intake::{INPUT_LIMIT, InputFault, PIECE, read_all};
pub use memory::{MemSink, MemSource, SureSink, SureSource};
pub use outside::{Sink, Source, write_all};
pub use system::{DropSink, FileSink, StdSink, StdSource};
