//! Whole reports, the word of each outcome, and lines of traces.
use crate::DownloadEnd::{File, Load};
use crate::{
    DownloadEnd, FileEnd, Leased, Report, TraceEnd, TraceLine, TraceUnit, report_text, trace_line,
};
use efi_base::{Bytes, CodingField, End, Field, Ip4, LoadEnd, Mac, Part, Peer, Refuse, Tick, What};
use std::process::Abort;
use std::test::Fail;

/// A report, and its text but for its last two lines.
#[derive(Clone, Copy)]
struct Case {
    lease: Option<Leased>,
    uri: Option<&'static str>,
    peer: Option<Peer>,
    accepted: u64,
    fin: bool,
    outcome: DownloadEnd,
    counts: (u64, u64, u64),
    text: &'static str,
}

/// Of a boot: the URI has an octet that isn't visible.
const BOOT: Case = Case {
    lease: Some(Leased {
        addr: Ip4(0xC0A8_0732),
        mask: 0xFFFF_FF00,
    }),
    uri: Some("http://192.168.7.1/im\x7Fage"),
    peer: Some(Peer {
        addr: Ip4(0xC0A8_0701),
        port: 80,
    }),
    accepted: 58,
    fin: true,
    outcome: Load(LoadEnd::Success(1)),
    counts: (10, 7, 5),
    text: "efiboot report 1\nlease 192.168.7.50 255.255.255.0\nuri http://192.168.7.1/im?age\npeer 192.168.7.1:80\n\
        accepted 58 fin\noutcome success 1\ntick 10 sent 7 heard 5\n",
};

/// Of a capture.
const EXTRACT: Case = Case {
    lease: None,
    uri: None,
    peer: Some(Peer {
        addr: Ip4(0x0A00_0001),
        port: 80,
    }),
    accepted: 39,
    fin: false,
    outcome: Load(LoadEnd::Success(1)),
    counts: (4, 1, 2),
    text: "efiboot report 1\nlease -\nuri -\npeer 10.0.0.1:80\naccepted 39 open\noutcome success 1\ntick 4 sent 1 heard 2\n",
};

/// Of a capture without records.
const EMPTY: Case = Case {
    lease: None,
    uri: None,
    peer: None,
    accepted: 0,
    fin: false,
    outcome: Load(LoadEnd::NoConnection),
    counts: (0, 0, 0),
    text: "efiboot report 1\nlease -\nuri -\npeer -\naccepted 0 open\noutcome no-connection\ntick 0 sent 0 heard 0\n",
};

/// The largest numbers, and the URI's octets at the ends of what is visible.
const LARGEST: Case = Case {
    lease: Some(Leased {
        addr: Ip4(0xFFFF_FFFF),
        mask: 0,
    }),
    uri: Some("\x00 !~\x7F\u{E9}"),
    peer: Some(Peer {
        addr: Ip4(0x0001_0203),
        port: 65535,
    }),
    accepted: 18_446_744_073_709_551_615,
    fin: true,
    outcome: Load(LoadEnd::NoOffer(4_294_967_295)),
    counts: (
        18_446_744_073_709_551_615,
        18_446_744_073_709_551_615,
        18_446_744_073_709_551_615,
    ),
    text: "efiboot report 1\nlease 255.255.255.255 0.0.0.0\nuri ??!~???\npeer 0.1.2.3:65535\n\
        accepted 18446744073709551615 fin\noutcome no-offer 4294967295\n\
        tick 18446744073709551615 sent 18446744073709551615 heard 18446744073709551615\n",
};

fn check<R: Abort + AllocGlobal>(rt: &R, case: &Case) -> Result<(), Fail> {
    let alloc = rt.alloc();
    let uri = match case.uri {
        Some(text) => Some(Bytes::from_vec(String::from_str(alloc, text)?.into_bytes())),
        None => None,
    };
    let (tick, sent, heard) = case.counts;
    let report = Report {
        lease: case.lease,
        uri,
        peer: case.peer,
        accepted: case.accepted,
        fin: case.fin,
        outcome: case.outcome,
        tick: Tick(tick),
        sent,
        heard,
    };
    let text = report_text(alloc, &report);
    let Ok(text) = text else {
        panic!(rt; "no memory");
    };
    assert_eq!(rt; text.as_slice(), case.text.as_bytes());
    Ok(())
}

fn check_word<R: Abort + AllocGlobal>(
    rt: &R,
    outcome: DownloadEnd,
    word: &str,
) -> Result<(), Fail> {
    let text = outcome.to_string(rt.alloc())?;
    assert_eq!(rt; text.as_str(), word);
    Ok(())
}

#[test]
fn writes_by_the_table(rt: HostRuntime) -> Result<(), Fail> {
    for case in [BOOT, EXTRACT, EMPTY, LARGEST] {
        check(&rt, &case)?;
    }
    Ok(())
}

#[test]
fn words_by_the_table(rt: HostRuntime) -> Result<(), Fail> {
    let cases = [
        (Load(LoadEnd::Success(0)), "success 0"),
        (Load(LoadEnd::NoOffer(3)), "no-offer 3"),
        (Load(LoadEnd::NoAck), "no-ack"),
        (Load(LoadEnd::Nak), "nak"),
        (Load(LoadEnd::BadUri), "bad-uri"),
        (
            Load(LoadEnd::Unsupported(What::Scheme)),
            "unsupported scheme",
        ),
        (Load(LoadEnd::Unsupported(What::Host)), "unsupported host"),
        (Load(LoadEnd::NoDns), "no-dns"),
        (Load(LoadEnd::NameError(3)), "name-error 3"),
        (Load(LoadEnd::NoAddress), "no-address"),
        (Load(LoadEnd::DnsTimeout), "dns-timeout"),
        (Load(LoadEnd::NoRoute), "no-route"),
        (Load(LoadEnd::NoMapping), "no-mapping"),
        (Load(LoadEnd::Refused), "refused"),
        (Load(LoadEnd::ConnectTimeout), "connect-timeout"),
        (Load(LoadEnd::SendTimeout), "send-timeout"),
        (Load(LoadEnd::Reset), "reset"),
        (Load(LoadEnd::Idle), "idle"),
        (Load(LoadEnd::Truncated(12)), "truncated 12"),
        (Load(LoadEnd::BadResponse(Part::Head)), "bad-response head"),
        (
            Load(LoadEnd::BadResponse(Part::Length)),
            "bad-response length",
        ),
        (
            Load(LoadEnd::BadResponse(Part::Chunk)),
            "bad-response chunk",
        ),
        (
            Load(LoadEnd::BadResponse(Part::Trailer)),
            "bad-response trailer",
        ),
        (Load(LoadEnd::TooManyRedirects), "too-many-redirects"),
        (Load(LoadEnd::HttpStatus(404)), "http-status 404"),
        (
            Load(LoadEnd::Coding(CodingField::Content)),
            "coding content",
        ),
        (
            Load(LoadEnd::Coding(CodingField::Transfer)),
            "coding transfer",
        ),
        (Load(LoadEnd::BufferTooSmall(100)), "buffer-too-small 100"),
        (Load(LoadEnd::OutOfTime), "out-of-time"),
        (Load(LoadEnd::Aborted), "aborted"),
        (Load(LoadEnd::NoConnection), "no-connection"),
        (File(FileEnd::TftpError(65535)), "tftp-error 65535"),
        (File(FileEnd::TftpTimeout), "tftp-timeout"),
        (File(FileEnd::TooManyBlocks), "too-many-blocks"),
    ];
    for (outcome, word) in cases {
        check_word(&rt, outcome, word)?;
    }
    Ok(())
}

fn check_line<R: Abort + AllocGlobal>(rt: &R, line: &TraceLine, wanted: &str) -> Result<(), Fail> {
    let text = trace_line(rt.alloc(), line);
    let Ok(text) = text else {
        panic!(rt; "no memory");
    };
    assert_eq!(rt; text.as_slice(), wanted.as_bytes());
    Ok(())
}

fn octets<R: Abort + AllocGlobal>(rt: &R, octets: &[u8]) -> Result<Bytes, Fail> {
    Ok(Bytes::from_vec(octets.to_vec(rt.alloc())?))
}

#[test]
fn answers_by_the_table(rt: HostRuntime) -> Result<(), Fail> {
    let peer = Mac([2, 0, 0, 0, 0, 0xFE]);
    let room = Refuse::BadConfig(Field::Room);
    check_line(&rt, &TraceLine::First, "efitrace 1\n")?;
    check_line(&rt, &TraceLine::Done, "done\n")?;
    check_line(&rt, &TraceLine::Found(peer), "found 02:00:00:00:00:fe\n")?;
    check_line(&rt, &TraceLine::Handle(1), "handle 1\n")?;
    check_line(&rt, &TraceLine::Token(65), "token 65\n")?;
    check_line(&rt, &TraceLine::Refused(room), "refused bad-config room\n")?;
    check_line(&rt, &TraceLine::Tick(499), "tick 499\n")?;
    check_line(&rt, &TraceLine::Heard, "heard\n")?;
    check_line(&rt, &TraceLine::Last, "end\n")
}

#[test]
fn ends_by_the_table(rt: HostRuntime) -> Result<(), Fail> {
    let source = Peer {
        addr: Ip4(0x0A00_0001),
        port: 7,
    };
    let unit = TraceUnit::FromPort(source, octets(&rt, &[0x68, 0x69])?);
    let line = TraceLine::Fired(2, TraceEnd::Success(unit));
    check_line(&rt, &line, "fired 2 success 10.0.0.1 7 6869\n")?;
    let line = TraceLine::Fired(1, TraceEnd::Success(TraceUnit::Nothing));
    check_line(&rt, &line, "fired 1 success -\n")?;
    let line = TraceLine::Fired(1, TraceEnd::Failed(End::NoOffer(0)));
    check_line(&rt, &line, "fired 1 no-offer 0\n")?;
    let load = End::Load(LoadEnd::BadResponse(Part::Head));
    let line = TraceLine::Fired(3, TraceEnd::Failed(load));
    check_line(&rt, &line, "fired 3 bad-response head\n")?;
    let line = TraceLine::Sent(octets(&rt, &[0, 0xB5, 0x42])?);
    check_line(&rt, &line, "sent 00b542\n")
}
