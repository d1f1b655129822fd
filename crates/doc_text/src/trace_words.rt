//! The words of refusals, and of tokens' ends.
ghost use Rattle.std.specs.Prelude.{◌≡◌, Some};
ghost use Rattle.doc_text.specs.TraceWords.{end_word, field_word, refuse_word};

use crate::ends::{LoadWord, part_word};
use efi_base::{End, Field, Refuse};
use std::fmt;

/// A refusal that is written as its word, with the field of a configuration.
#[derive(Clone, Copy, Debug)]
pub struct RefuseWord(pub Refuse);

/// A token's end that is written as its word, with its number or a second word.
#[derive(Clone, Copy, Debug)]
pub struct EndWord(pub End);

fn field_word(field: Field) -> &'static str
    ensures { result.now ≡ field_word field }
{
    match field {
        Field::Filter => "filter",
        Field::Length => "length",
        Field::Address => "address",
        Field::Mask => "mask",
        Field::Port => "port",
        Field::Tries => "tries",
        Field::Gap => "gap",
        Field::Server => "server",
        Field::Name => "name",
        Field::Url => "url",
        Field::Room => "room",
    }
}

impl fmt::Display for RefuseWord {
    ghost output = { λ word. Some (refuse_word word.0) };

    fn fmt<W: fmt::Write>(&self, f: &mut fmt::Formatter<W>) -> fmt::Result {
        match &self.0 {
            Refuse::BadHandle => write!(f, "bad-handle"),
            Refuse::NotStarted => write!(f, "not-started"),
            Refuse::AlreadyStarted => write!(f, "already-started"),
            Refuse::AccessDenied => write!(f, "access-denied"),
            Refuse::NoMapping => write!(f, "no-mapping"),
            Refuse::BadConfig(field) => write!(f, "bad-config {}", field_word(*field)),
            Refuse::NotFound => write!(f, "not-found"),
            Refuse::NoRoute => write!(f, "no-route"),
            Refuse::NotReady => write!(f, "not-ready"),
            Refuse::Exhausted => write!(f, "exhausted"),
            Refuse::OutOfResources => write!(f, "out-of-resources"),
        }
    }
}

impl fmt::Display for EndWord {
    ghost output = { λ word. Some (end_word word.0) };

    fn fmt<W: fmt::Write>(&self, f: &mut fmt::Formatter<W>) -> fmt::Result {
        match &self.0 {
            End::Success => write!(f, "success"),
            End::Aborted => write!(f, "aborted"),
            End::DeviceError => write!(f, "device-error"),
            End::NoMapping => write!(f, "no-mapping"),
            End::ReceiveTimeout => write!(f, "receive-timeout"),
            End::PortUnreachable => write!(f, "port-unreachable"),
            End::BadResponse(part) => write!(f, "bad-response {}", part_word(*part)),
            End::ConnectionFin => write!(f, "connection-fin"),
            End::ConnectionReset => write!(f, "connection-reset"),
            End::ConnectionRefused => write!(f, "connection-refused"),
            End::ConnectTimeout => write!(f, "connect-timeout"),
            End::SendTimeout => write!(f, "send-timeout"),
            End::NoOffer(seen) => write!(f, "no-offer {seen}"),
            End::NoAck => write!(f, "no-ack"),
            End::Nak => write!(f, "nak"),
            End::NameError(code) => write!(f, "name-error {code}"),
            End::NoAddress => write!(f, "no-address"),
            End::DnsTimeout => write!(f, "dns-timeout"),
            End::TftpError(code) => write!(f, "tftp-error {code}"),
            End::TftpTimeout => write!(f, "tftp-timeout"),
            End::TooManyBlocks => write!(f, "too-many-blocks"),
            End::BufferTooSmall(count) => write!(f, "buffer-too-small {count}"),
            End::NoRoute => write!(f, "no-route"),
            End::Load(end) => LoadWord(*end).fmt(f),
            End::OutOfResources => write!(f, "out-of-resources"),
        }
    }
}
