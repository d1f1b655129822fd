//! What a command line asks for.
use efi_base::Mac;

/// What a command writes to its output.
#[derive(Clone, Copy, PartialEq, Eq, Debug)]
pub enum Emit {
    Report,
    Image,
}

/// Takes the image out of a capture.
#[derive(Clone, Copy, PartialEq, Eq, Debug)]
pub struct ExtractTask {
    pub emit: Emit,
    /// The most octets of the image.
    pub buffer: u32,
}

/// Runs a load over the frames of a capture.
#[derive(Clone, Copy, PartialEq, Eq, Debug)]
pub struct ReplayTask {
    pub emit: Emit,
    /// The most octets of the image.
    pub buffer: u32,
    /// The station's number.
    pub seed: u32,
    /// The station's address.
    pub mac: Mac,
}

/// Runs a load over a session that the seed makes.
#[derive(Clone, Copy, PartialEq, Eq, Debug)]
pub struct MakeTask {
    pub emit: Emit,
    pub seed: u32,
}

/// One command with its options.
#[derive(Clone, Copy, PartialEq, Eq, Debug)]
pub enum Task {
    Extract(ExtractTask),
    Script,
    Replay(ReplayTask),
    Boot(Emit),
    Tftp(Emit),
    Make(MakeTask),
}
