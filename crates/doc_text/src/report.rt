//! What a report tells of a download. How it is written isn't here.
use crate::ends::DownloadEnd;
use efi_base::{Bytes, Ip4, Peer, Tick};

/// What the server lent: an address, and its mask as a number like the address.
#[derive(Clone, Copy, PartialEq, Eq, Debug)]
pub struct Leased {
    pub addr: Ip4,
    pub mask: u32,
}

/// What is told of a download, a field for each word of the report.
#[derive(Debug, Drop)]
pub struct Report {
    /// The lease that was heard.
    pub lease: Option<Leased>,
    /// The octets of the URI that was heard.
    pub uri: Option<Bytes>,
    /// The server of the image, once it was to be asked.
    pub peer: Option<Peer>,
    /// Octets of the stream that were accepted.
    pub accepted: u64,
    /// Whether the end of the stream was reached.
    pub fin: bool,
    /// How the download ended.
    pub outcome: DownloadEnd,
    /// When it ended.
    pub tick: Tick,
    /// Records that the station sent.
    pub sent: u64,
    /// Records that it heard.
    pub heard: u64,
}
