//! How a download ends, and the word that tells it.
ghost use Rattle.std.specs.Prelude.{◌≡◌, Some};
ghost use Rattle.doc_text.specs.Ends.{coding_word, download_word, file_word, load_word, part_word, what_word};

use efi_base::{CodingField, LoadEnd, Part, What};
use std::fmt;

/// How the transfer of a file ends by its protocol, TFTP (RFC 1350), where no load can end so.
#[derive(Clone, Copy, PartialEq, Eq, Debug)]
pub enum FileEnd {
    /// The server answered with this error.
    TftpError(u16),
    /// The server didn't answer.
    TftpTimeout,
    /// The file has more blocks than numbers are there for them.
    TooManyBlocks,
}

/// How a download ends: as a load does, or as the transfer of a file alone can.
#[derive(Clone, Copy, PartialEq, Eq, Debug)]
pub enum DownloadEnd {
    Load(LoadEnd),
    File(FileEnd),
}

/// A load's end that is written as its word, with its number or a second word.
#[derive(Clone, Copy, Debug)]
pub struct LoadWord(pub LoadEnd);

impl fmt::Display for LoadWord {
    ghost output = { λ word. Some (load_word word.0) };

    fn fmt<W: fmt::Write>(&self, f: &mut fmt::Formatter<W>) -> fmt::Result {
        match &self.0 {
            LoadEnd::Success(count) => write!(f, "success {count}"),
            LoadEnd::NoOffer(seen) => write!(f, "no-offer {seen}"),
            LoadEnd::NoAck => write!(f, "no-ack"),
            LoadEnd::Nak => write!(f, "nak"),
            LoadEnd::BadUri => write!(f, "bad-uri"),
            LoadEnd::Unsupported(what) => write!(f, "unsupported {}", what_word(*what)),
            LoadEnd::NoDns => write!(f, "no-dns"),
            LoadEnd::NameError(code) => write!(f, "name-error {code}"),
            LoadEnd::NoAddress => write!(f, "no-address"),
            LoadEnd::DnsTimeout => write!(f, "dns-timeout"),
            LoadEnd::NoRoute => write!(f, "no-route"),
            LoadEnd::NoMapping => write!(f, "no-mapping"),
            LoadEnd::Refused => write!(f, "refused"),
            LoadEnd::ConnectTimeout => write!(f, "connect-timeout"),
            LoadEnd::SendTimeout => write!(f, "send-timeout"),
            LoadEnd::BadResponse(part) => write!(f, "bad-response {}", part_word(*part)),
            LoadEnd::TooManyRedirects => write!(f, "too-many-redirects"),
            LoadEnd::HttpStatus(status) => write!(f, "http-status {status}"),
            LoadEnd::Coding(field) => write!(f, "coding {}", coding_word(*field)),
            LoadEnd::BufferTooSmall(count) => write!(f, "buffer-too-small {count}"),
            LoadEnd::Truncated(count) => write!(f, "truncated {count}"),
            LoadEnd::Reset => write!(f, "reset"),
            LoadEnd::Idle => write!(f, "idle"),
            LoadEnd::OutOfTime => write!(f, "out-of-time"),
            LoadEnd::Aborted => write!(f, "aborted"),
            LoadEnd::OutOfResources => write!(f, "out-of-resources"),
            LoadEnd::NoConnection => write!(f, "no-connection"),
        }
    }
}

impl fmt::Display for FileEnd {
    ghost output = { λ end. Some (file_word end) };

    fn fmt<W: fmt::Write>(&self, f: &mut fmt::Formatter<W>) -> fmt::Result {
        match self {
            FileEnd::TftpError(code) => write!(f, "tftp-error {code}"),
            FileEnd::TftpTimeout => write!(f, "tftp-timeout"),
            FileEnd::TooManyBlocks => write!(f, "too-many-blocks"),
        }
    }
}

impl fmt::Display for DownloadEnd {
    ghost output = { λ end. Some (download_word end) };

    fn fmt<W: fmt::Write>(&self, f: &mut fmt::Formatter<W>) -> fmt::Result {
        match self {
            DownloadEnd::Load(end) => LoadWord(*end).fmt(f),
            DownloadEnd::File(end) => end.fmt(f),
        }
    }
}

fn what_word(what: What) -> &'static str
    ensures { result.now ≡ what_word what }
{
    match what {
        What::Scheme => "scheme",
        What::Host => "host",
    }
}

pub fn part_word(part: Part) -> &'static str
    ensures { result.now ≡ part_word part }
{
    match part {
        Part::Head => "head",
        Part::Length => "length",
        Part::Chunk => "chunk",
        Part::Trailer => "trailer",
    }
}

fn coding_word(field: CodingField) -> &'static str
    ensures { result.now ≡ coding_word field }
{
    match field {
        CodingField::Content => "content",
        CodingField::Transfer => "transfer",
    }
}
