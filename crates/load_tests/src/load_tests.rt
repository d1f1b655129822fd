//! Loads on cases from outside.
ghost use Rattle.std.specs.Prelude.{◌<◌};

use efi_base::{CodingField, LoadEnd, Part};
use load_core::Load;
use std::alloc::Global;
use std::process::Abort;

/// The buffer's length, the stream, whether it is at its end, what is met, and the octets placed.
type Row<'a> = (u32, &'a [u8], bool, Option<LoadEnd>, &'a [u8]);

/// Feeds a piece, and where there is no memory for it, once more.
fn feed(rt: &impl Abort, load: &mut Load, piece: &[u8]) {
    if load.feed(piece).is_err() {
        load.feed(piece).expect(rt, "memory for the piece");
    }
}

/// Feeds a stream in pieces of so many octets, and compares what is met and placed.
fn loads(rt: &impl Abort, alloc: Global, size: usize, row: &Row)
    requires { 0 < size }
{
    let (most, stream, fin, end, body) = row;
    let mut load = Load::new(alloc, *most);
    for piece in stream.chunks(size) {
        feed(rt, &mut load, piece);
    }
    assert_eq!(rt; load.end(*fin, false), *end, "in pieces of {size}");
    assert_eq!(rt; load.body(), *body, "in pieces of {size}");
    assert_eq!(rt; load.into_body().as_slice(), *body, "in pieces of {size}");
}

/// Feeds each stream in one piece, an octet at a time, and in pieces of three.
fn each_loads(rt: &impl Abort, alloc: Global, rows: &[Row]) {
    for row in rows {
        loads(rt, alloc, 4_096, row);
        loads(rt, alloc, 3, row);
        loads(rt, alloc, 1, row);
    }
}

#[test]
fn every_case(rt: HostRuntime) {
    let rows: [Row; 25] = [
        (
            5,
            b"HTTP/1.1 200 OK\r\nContent-Length: 5\r\n\r\nhello",
            false,
            Some(LoadEnd::Success(5)),
            b"hello",
        ),
        (
            5,
            b"HTTP/1.1 200 OK\r\nContent-Length: 5\r\n\r\nhello, you",
            false,
            Some(LoadEnd::Success(5)),
            b"hello",
        ),
        (
            4,
            b"HTTP/1.1 200 OK\r\nContent-Length: 5\r\n\r\n",
            false,
            Some(LoadEnd::BufferTooSmall(5)),
            b"",
        ),
        (
            9,
            b"HTTP/1.1 200 OK\r\nContent-Length: 5\r\n\r\nhell",
            true,
            Some(LoadEnd::Truncated(42)),
            b"hell",
        ),
        (
            0,
            b"HTTP/1.1 200 OK\r\nContent-Length: 0\r\n\r\n",
            false,
            Some(LoadEnd::Success(0)),
            b"",
        ),
        (
            9,
            b"HTTP/1.1 100 Continue\r\n\r\nHTTP/1.1 200 OK\r\nContent-Length: 2\r\n\r\nhi",
            false,
            Some(LoadEnd::Success(2)),
            b"hi",
        ),
        (
            9,
            b"HTTP/1.1 103 Early Hints\r\nLink: a\r\n\r\nHTTP/1.1 404 None\r\n\r\n",
            false,
            Some(LoadEnd::HttpStatus(404)),
            b"",
        ),
        (
            9,
            b"HTTP/1.1 103 Early Hints\r\nLink: a\r\n\r\nHTTP/1.1 200 OK\r\nContent-Length: 1, 01\r\n\r\n!",
            false,
            Some(LoadEnd::Success(1)),
            b"!",
        ),
        (
            1,
            b"HTTP/1.1 404 None\r\nContent-Length: 2\r\n\r\nno",
            false,
            Some(LoadEnd::HttpStatus(404)),
            b"",
        ),
        (
            9,
            b"HTTP/1.1 101 Switching\r\n\r\n",
            false,
            Some(LoadEnd::HttpStatus(101)),
            b"",
        ),
        (
            9,
            b"HTTP/1.1 100 Continue\r\n\r\nHTTQ",
            false,
            Some(LoadEnd::BadResponse(Part::Head)),
            b"",
        ),
        (
            9,
            b"HTTP/1.1 200 OK\r\nContent-Length: 5",
            true,
            Some(LoadEnd::Truncated(34)),
            b"",
        ),
        (9, b"", true, Some(LoadEnd::Truncated(0)), b""),
        (
            9,
            b"HTTP/1.1 200 OK\r\nContent-Length: 5, 6\r\n\r\n",
            false,
            Some(LoadEnd::BadResponse(Part::Length)),
            b"",
        ),
        (
            9,
            b"HTTP/1.1 200 OK\r\nContent-Length: 5\r\nContent-Length: 6\r\n\r\nhello",
            false,
            Some(LoadEnd::BadResponse(Part::Length)),
            b"",
        ),
        (
            9,
            b"HTTP/1.1 404 None\r\nTransfer-Encoding: chunked\r\n\r\nx",
            false,
            Some(LoadEnd::BadResponse(Part::Chunk)),
            b"",
        ),
        (
            9,
            b"HTTP/1.1 200 OK\r\nTransfer-Encoding: chunked\r\n\r\n2\r\nhi\r\n0\r\n:\r\n",
            false,
            Some(LoadEnd::BadResponse(Part::Trailer)),
            b"hi",
        ),
        (
            9,
            b"HTTP/1.1 200 OK\r\nTransfer-Encoding: chunked\r\n\r\n2\r\nhi\r\n1;a\r\n!\r\n0\r\n\r\n",
            false,
            Some(LoadEnd::Success(3)),
            b"hi!",
        ),
        (
            2,
            b"HTTP/1.1 200 OK\r\nTransfer-Encoding: chunked\r\n\r\n2\r\nhi\r\n2\r\n!",
            false,
            Some(LoadEnd::BufferTooSmall(3)),
            b"hi",
        ),
        (
            2,
            b"HTTP/1.1 200 OK\r\nTransfer-Encoding: chunked\r\n\r\n2\r\nhi\r\n1\r\n!!",
            false,
            Some(LoadEnd::BadResponse(Part::Chunk)),
            b"hi",
        ),
        (
            9,
            b"HTTP/1.1 200 OK\r\n\r\nall of it",
            false,
            None,
            b"all of it",
        ),
        (
            9,
            b"HTTP/1.1 200 OK\r\n\r\nall of it",
            true,
            Some(LoadEnd::Success(9)),
            b"all of it",
        ),
        (
            8,
            b"HTTP/1.1 200 OK\r\n\r\nall of it",
            true,
            Some(LoadEnd::BufferTooSmall(9)),
            b"all of i",
        ),
        (
            9,
            b"HTTP/1.1 200 OK\r\nContent-Encoding: gzip\r\nContent-Length: 2\r\n\r\nhi",
            false,
            Some(LoadEnd::Coding(CodingField::Content)),
            b"",
        ),
        (
            9,
            b"HTTP/1.1 200 OK\r\nTransfer-Encoding: gzip\r\n\r\nhi",
            true,
            Some(LoadEnd::Coding(CodingField::Transfer)),
            b"",
        ),
    ];
    each_loads(&rt, rt.alloc(), &rows);
}

/// A head of 34 octets, and no body.
const EMPTY: &[u8] = b"HTTP/1.1 200 OK\nContent-Length:0\n\n";

/// What is met of a stream with 16,320 blank octets and so many more between its front and its end.
fn meets_behind(
    rt: &impl Abort,
    alloc: Global,
    front: &[u8],
    times: usize,
    end: &[u8],
) -> Option<LoadEnd> {
    let mut load = Load::new(alloc, 9);
    feed(rt, &mut load, front);
    for _ in 0..255 {
        feed(rt, &mut load, &[b'\n'; 64]);
    }
    for _ in 0..times {
        feed(rt, &mut load, b"\n");
    }
    feed(rt, &mut load, end);
    load.end(false, false)
}

#[test]
fn heads_end_at_the_limit(rt: HostRuntime) {
    let bad = Some(LoadEnd::BadResponse(Part::Head));
    let cases: [(&[u8], usize, &[u8], Option<LoadEnd>); 5] = [
        (b"", 63, b"", None),
        (b"", 64, b"", bad),
        (b"HTTP/1.1 103 E\n\n", 13, EMPTY, Some(LoadEnd::Success(0))),
        (b"HTTP/1.1 103 E\n\n", 14, EMPTY, Some(LoadEnd::Success(0))),
        (b"HTTP/1.1 103 E\n\n", 15, EMPTY, bad),
    ];
    for (front, times, end, want) in cases {
        assert_eq!(rt; meets_behind(&rt, rt.alloc(), front, times, end), want);
    }
}
