//! Heads and bodies from outside.
use efi_base::{CodingField, Part};
use wire_http::{Body, BodyState, Framing, Head, HeadInfo, read_head};

fn whole(status: u16, framing: Framing, coding: Option<CodingField>, len: usize) -> Head {
    let info = HeadInfo {
        status,
        framing,
        coding,
        location: None,
    };
    Head::Whole(info, len)
}

#[test]
fn reads_heads(rt: HostRuntime) {
    let cases: [(&[u8], Head); 21] = [
        (
            b"HTTP/1.1 200 OK\r\nContent-Length: 1\r\n\r\nA",
            whole(200, Framing::Length(1), None, 38),
        ),
        (
            b"HTTP/1.1 404 Not Found\r\ncontent-length:0007\r\n\r\n",
            whole(404, Framing::Length(7), None, 47),
        ),
        (
            b"HTTP/1.1 200 OK\r\nTransfer-Encoding: CHUNKED\r\n\r\n",
            whole(200, Framing::Chunked, None, 47),
        ),
        (
            b"HTTP/1.1 200 OK\r\nTransfer-Encoding: gzip\r\n\r\n",
            whole(200, Framing::Close, Some(CodingField::Transfer), 44),
        ),
        (
            b"HTTP/1.1 200 OK\r\nContent-Encoding: gzip\r\n\r\n",
            whole(200, Framing::Close, Some(CodingField::Content), 43),
        ),
        (
            b"HTTP/1.1 200 OK\r\nContent-Encoding: Identity\r\n\r\n",
            whole(200, Framing::Close, None, 47),
        ),
        (
            b"HTTP/1.1 200 OK\r\nContent-Length: 5\r\nContent-Length: 05\r\n\r\n",
            whole(200, Framing::Length(5), None, 58),
        ),
        (
            b"HTTP/1.1 200 OK\r\nContent-Length: 5 ,\t5\r\n\r\n",
            whole(200, Framing::Length(5), None, 42),
        ),
        (
            b"HTTP/1.1 200 OK\r\nContent-Length: 5, 6\r\n\r\n",
            whole(200, Framing::BadLength, None, 41),
        ),
        (
            b"HTTP/1.1 200 OK\r\nContent-Length: 5,\r\n\r\n",
            whole(200, Framing::BadLength, None, 39),
        ),
        (
            b"HTTP/1.1 200 OK\r\nContent-Length: 9999999999999999999\r\n\r\n",
            whole(200, Framing::Length(9_999_999_999_999_999_999), None, 56),
        ),
        (
            b"HTTP/1.1 200 OK\r\nContent-Length: 00000000000000000001\r\n\r\n",
            whole(200, Framing::BadLength, None, 57),
        ),
        (
            b"HTTP/1.1 200 OK\r\nContent-Length: 18446744073709551617\r\n\r\n",
            whole(200, Framing::BadLength, None, 57),
        ),
        (
            b"HTTP/1.1 200 OK\r\nContent-Length: -1\r\n\r\n",
            whole(200, Framing::BadLength, None, 39),
        ),
        (
            b"HTTP/1.1 200 OK\r\nContent-Length: 5\r\nContent-Length: 6\r\n\r\n",
            whole(200, Framing::BadLength, None, 57),
        ),
        (
            b"HTTP/1.1 200 OK\r\nContent-Length: 7,7, 07\r\n\r\n",
            whole(200, Framing::Length(7), None, 44),
        ),
        (
            b"HTTP/1.1 103 Early Hints\r\nLink: a\r\n\r\nHTTP/1.1 200 OK\r\n\r\n",
            whole(103, Framing::Close, None, 37),
        ),
        (
            b"HTTP/1.1 204 No Content\r\nContent-Length: 1\r\n\r\n",
            whole(204, Framing::Empty, None, 46),
        ),
        (
            b"HTTP/1.0 200 OK\r\n\r\n",
            whole(200, Framing::Close, None, 19),
        ),
        (b"HTTP/1.1 200 OK\r\nContent-Length: 1\r\n", Head::More),
        (b"HTTP/2 200\r\n\r\n", Head::Bad),
    ];
    for (bytes, want) in cases {
        assert_eq!(rt; read_head(bytes), want);
    }
}

#[test]
fn finds_the_one_location(rt: HostRuntime) {
    let cases: [(&[u8], Option<(usize, usize)>); 4] = [
        (
            b"HTTP/1.1 302 Found\r\nlocation:  /b \r\n\r\n",
            Some((31, 2)),
        ),
        (
            b"HTTP/1.1 301 M\r\nA: /a\r\nLOCATION:http://a/\r\n\r\n",
            Some((32, 9)),
        ),
        (
            b"HTTP/1.1 302 Found\r\nLocation: /b\r\nLocation: /b\r\n\r\n",
            None,
        ),
        (b"HTTP/1.1 302 Found\r\nLocations: /b\r\n\r\n", None),
    ];
    for (bytes, want) in cases {
        match read_head(bytes) {
            Head::Whole(info, _) => assert_eq!(rt; info.location, want),
            other => assert_eq!(rt; other, Head::More),
        }
    }
}

#[test]
fn reads_at_most_64_fields(rt: HostRuntime) {
    let cases: [(&[u8], Head); 5] = [
        (b"\n", whole(200, Framing::Close, None, 209)),
        (b"", Head::More),
        (b"\r", Head::More),
        (b"a", Head::Bad),
        (b"a:\n\n", Head::Bad),
    ];
    for (end, want) in cases {
        let mut bytes = Vec::new(rt.alloc());
        assert!(rt; bytes.extend_from_slice(b"HTTP/1.1 200 OK\n").is_ok());
        for _ in 0..64 {
            assert!(rt; bytes.extend_from_slice(b"a:\n").is_ok());
        }
        assert!(rt; bytes.extend_from_slice(end).is_ok());
        assert_eq!(rt; read_head(&bytes), want);
    }
}

/// Feeds two pieces, and answers the last state, that at the end, the octets read of the second, and those placed.
fn feed_both(
    framing: Framing,
    first: &[u8],
    second: &[u8],
    place: &mut [u8],
) -> (BodyState, BodyState, usize, usize) {
    let mut body = Body::new(framing);
    let front = body.feed(first, place);
    if front.placed > place.len() {
        return (front.state, front.state, front.read, front.placed);
    }
    let back = body.feed(second, &mut place[front.placed..]);
    let placed = front.placed.saturating_add(back.placed);
    (back.state, body.fin(), back.read, placed)
}

const TWO_CHUNKS: &[u8] = b"A;x=1\r\n0123456789\r\n0a\r\nabcdefghij\r\n0\r\nT: 1\r\n\r\n";

#[test]
fn reads_bodies(rt: HostRuntime) {
    let chunk = BodyState::Bad(Part::Chunk);
    let trailer = BodyState::Bad(Part::Trailer);
    let cases: [(Framing, &[u8], &[u8], BodyState, BodyState, usize, &[u8]); 20] = [
        (
            Framing::Chunked,
            b"A;x",
            b"=1\r\n0123456789\r\n0a\r\nabcdefghij\r\n0\r\nT: 1\r\n\r\n",
            BodyState::Whole,
            BodyState::Whole,
            43,
            b"0123456789abcdefghij",
        ),
        (
            Framing::Length(3),
            b"ab",
            b"cde",
            BodyState::Whole,
            BodyState::Whole,
            1,
            b"abc",
        ),
        (
            Framing::Length(3),
            b"a",
            b"b",
            BodyState::More,
            BodyState::More,
            1,
            b"ab",
        ),
        (
            Framing::Length(0),
            b"a",
            b"b",
            BodyState::Whole,
            BodyState::Whole,
            0,
            b"",
        ),
        (
            Framing::Empty,
            b"a",
            b"b",
            BodyState::Whole,
            BodyState::Whole,
            0,
            b"",
        ),
        (
            Framing::Close,
            b"ab",
            b"c",
            BodyState::More,
            BodyState::Whole,
            1,
            b"abc",
        ),
        (
            Framing::BadLength,
            b"a",
            b"b",
            BodyState::Bad(Part::Length),
            BodyState::Bad(Part::Length),
            0,
            b"",
        ),
        (Framing::Chunked, b"", b"G\r\n", chunk, chunk, 1, b""),
        (
            Framing::Chunked,
            b"",
            b"0000000000000000 \t;\xFF\r\n\n+",
            BodyState::Whole,
            BodyState::Whole,
            23,
            b"",
        ),
        (
            Framing::Chunked,
            b"0000000000000001",
            b"1\r\n",
            chunk,
            chunk,
            1,
            b"",
        ),
        (
            Framing::Chunked,
            b"80000000\r\n",
            b"ab",
            BodyState::More,
            BodyState::More,
            2,
            b"ab",
        ),
        (Framing::Chunked, b"8000000", b"1\r\n", chunk, chunk, 1, b""),
        (
            Framing::Chunked,
            b"FFFFFFF",
            b"FFFFFFFFF\r\n",
            chunk,
            chunk,
            1,
            b"",
        ),
        (
            Framing::Chunked,
            b"10000000",
            b"000000001\r\n",
            chunk,
            chunk,
            1,
            b"",
        ),
        (Framing::Chunked, b"1\r\nab", b"\r\n", chunk, chunk, 0, b"a"),
        (Framing::Chunked, b"1\r\na\r", b"\r", chunk, chunk, 1, b"a"),
        (Framing::Chunked, b"1\n", b"a", chunk, chunk, 0, b""),
        (
            Framing::Chunked,
            b"1\r\na\r\n0\r\n",
            b" a: b\r\n",
            trailer,
            trailer,
            1,
            b"a",
        ),
        (
            Framing::Chunked,
            b"1\r\na\r\n0\r\na",
            b": b\r\n\rc",
            trailer,
            trailer,
            7,
            b"a",
        ),
        (
            Framing::Chunked,
            b"1\r\na\r\n0\r\nt:\xC3",
            b"\n\nmore",
            BodyState::Whole,
            BodyState::Whole,
            2,
            b"a",
        ),
    ];
    for (framing, first, second, state, at_end, read, octets) in cases {
        let mut place = [0; 32];
        let answer = feed_both(framing, first, second, &mut place);
        assert_eq!(rt; answer, (state, at_end, read, octets.len()));
        assert!(rt; place.starts_with(octets));
    }
}

/// Feeds the octets one by one.
fn feed_single(octets: &[u8], place: &mut [u8]) -> (BodyState, usize) {
    let mut body = Body::new(Framing::Chunked);
    let mut state = BodyState::More;
    let mut placed = 0;
    for i in 0..octets.len() {
        if placed <= place.len() {
            let fed = body.feed(&octets[i..i + 1], &mut place[placed..]);
            state = fed.state;
            if fed.placed <= place.len() - placed {
                placed += fed.placed;
            }
        }
    }
    (state, placed)
}

#[test]
fn reads_bodies_by_single_octets(rt: HostRuntime) {
    let mut place = [0; 32];
    assert_eq!(rt; feed_single(TWO_CHUNKS, &mut place), (BodyState::Whole, 20));
    assert!(rt; place.starts_with(b"0123456789abcdefghij"));
}

#[test]
fn stops_where_octets_have_no_room(rt: HostRuntime) {
    let mut body = Body::new(Framing::Chunked);
    let mut place = [0; 3];
    let fed = body.feed(b"5\r\nabcde\r\n", &mut place);
    assert_eq!(rt; (fed.read, fed.placed, fed.state), (6, 3, BodyState::More));
    let fed = body.feed(b"de\r\n0\r\n\r\n", &mut place);
    assert_eq!(rt; (fed.read, fed.placed, fed.state), (9, 2, BodyState::Whole));
    assert!(rt; place == *b"dec");
}

#[test]
fn limits_chunk_lines_and_trailers(rt: HostRuntime) {
    let cases: [(&[u8], &[u8], usize, &[u8], BodyState); 8] = [
        (b"0;", b"x", 252, b"\r\n\r\n", BodyState::Whole),
        (b"0;", b"x", 253, b"\r\n\r\n", BodyState::Bad(Part::Chunk)),
        (b"0;", b"x", 252, b"\r", BodyState::More),
        (b"0\r\n", b"a:\n", 64, b"\n", BodyState::Whole),
        (b"0\r\n", b"a:\n", 64, b"\r", BodyState::More),
        (b"0\r\n", b"a:\n", 64, b"a", BodyState::Bad(Part::Trailer)),
        (b"0\r\na", b"b", 16380, b":\n\n", BodyState::Whole),
        (b"0\r\na", b"b", 16381, b"", BodyState::Bad(Part::Trailer)),
    ];
    for (front, middle, times, end, want) in cases {
        let mut bytes = Vec::new(rt.alloc());
        assert!(rt; bytes.extend_from_slice(front).is_ok());
        for _ in 0..times {
            assert!(rt; bytes.extend_from_slice(middle).is_ok());
        }
        assert!(rt; bytes.extend_from_slice(end).is_ok());
        let mut body = Body::new(Framing::Chunked);
        let mut place = [0; 1];
        assert_eq!(rt; body.feed(&bytes, &mut place).state, want);
    }
}
