//! Scripts: calls of the stack, moments and frames, as a text of lines. The reader is fed the text in pieces.
#![tactic(auto)]

// what the lines so far say
mod draft;
// children by their numbers
mod handles;
// the reader
mod reader;
// what a whole script says
mod script;
// what children are configured with
mod settings;
// calls, moments and frames
mod step;
// the words of a line, one by one
mod words;
// the work of tokens
mod works;

pub use handles::Handle;
pub use reader::ScriptReader;
pub use script::Script;
pub use settings::{
    ArpSettings, IpSettings, MnpSettings, Settings, TcpSettings, TftpSettings, UdpSettings,
};
pub use step::{ArpCall, Path, SnpCall, Step};
pub use works::Work;
