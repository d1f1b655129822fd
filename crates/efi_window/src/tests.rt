//! The window on cases from outside.
use crate::Window;

/// What a case does with its window, and what it sees of it.
#[derive(Clone, Copy)]
enum Step {
    Put(u64, &'static [u8]),
    Ready(u64),
    Take(usize, &'static [u8]),
    IsFree(u64, bool),
}

/// A window of a length, and the steps of its case.
type Case = (u32, &'static [Step]);

const CASES: [Case; 5] = [
    // the part inside is kept
    (
        8,
        &[
            Step::Put(0, b"abc"),
            Step::Take(3, b"abc"),
            Step::Put(9, b"xyz"),
            Step::Ready(0),
            Step::Put(3, b"defghi"),
            Step::Ready(8),
            Step::Take(16, b"defghixy"),
            Step::Ready(0),
        ],
    ),
    // the first byte at a place stays, and the last places are never kept
    (
        10,
        &[
            Step::Put(2, b"C"),
            Step::Put(0, b"abcd"),
            Step::Put(u64::MAX, b"z"),
            Step::Put((1 << 62) - 1, b"yz"),
            Step::IsFree(4, true),
            Step::IsFree(3, false),
            Step::Take(3, b"abC"),
            Step::Put(1, b"xxxe"),
            Step::Take(4, b"de"),
        ],
    ),
    // pieces over pieces, on both sides of the ring's end
    (
        6,
        &[
            Step::Put(0, b"abcd"),
            Step::Take(4, b"abcd"),
            Step::Put(5, b"F"),
            Step::Put(7, b"H"),
            Step::Put(9, b"Jk"),
            Step::IsFree(10, true),
            Step::Put(4, b"efghijk"),
            Step::Ready(6),
            Step::Take(2, b"eF"),
            Step::Put(8, b"xxkl"),
            Step::Take(9, b"gHiJkl"),
        ],
    ),
    // round the ring's end behind a gap of whole words
    (
        130,
        &[
            Step::Put(0, b"abcdefgh"),
            Step::Take(5, b"abcde"),
            Step::Put(134, b"yz"),
            Step::IsFree(8, false),
            Step::IsFree(135, true),
            Step::Put(8, b"ij"),
            Step::Take(16, b"fghij"),
            Step::IsFree(134, false),
            Step::IsFree(135, true),
        ],
    ),
    // nothing fits
    (0, &[Step::Put(0, b"a"), Step::Ready(0), Step::Take(2, b"")]),
];

/// Whether the window shows what the step says.
fn shows(window: &mut Window, step: Step) -> bool {
    let mut room = [0u8; 16];
    match step {
        Step::Put(place, bytes) => {
            window.put(place, bytes);
            true
        }
        Step::Ready(count) => window.ready() == count,
        Step::Take(most, bytes) => {
            let most = most.min(16);
            let count = window.take(&mut room[..most]);
            count == bytes.len() && room.starts_with(bytes)
        }
        Step::IsFree(place, free) => {
            window.taken() <= place && window.is_free_from(place) == free
        }
    }
}

#[test]
fn cases(rt: HostRuntime) {
    for (cap, steps) in CASES {
        let mut window = Window::open(rt.alloc(), cap).expect(&rt, "memory");
        for step in steps {
            assert!(rt; shows(&mut window, *step));
        }
    }
}

/// The octet that these tests send at a place.
fn octet_at(place: u64) -> u8 {
    (place % 251) as u8
}

/// Fills a piece with the octets from a place on.
fn fill(piece: &mut [u8], place: u64) {
    for (i, octet) in piece.iter_mut().enumerate() {
        *octet = octet_at(place.wrapping_add(i as u64));
    }
}

/// Whether a piece holds the octets from a place on.
fn is_from(piece: &[u8], place: u64) -> bool {
    piece.iter().enumerate().all(|(i, octet)| *octet == octet_at(place.wrapping_add(i as u64)))
}

/// Puts a piece, its second part first and the parts over one another, and takes it again.
fn goes_round(window: &mut Window, piece: &mut [u8], late: usize) -> bool {
    let place = window.taken();
    let late = late.min(piece.len());
    fill(piece, place);
    window.put(place.saturating_add(late as u64), &piece[late..]);
    let waits = late == 0 || window.ready() == 0;
    let more = piece.len().min(late.saturating_add(2));
    window.put(place, &piece[..more]);
    piece.fill(0);
    let count = window.take(piece);
    waits && count == piece.len() && is_from(piece, place)
}

#[test]
fn rounds(rt: HostRuntime) {
    let mut piece = [0u8; 1000];
    let rows = [
        (65_535, 1000, 0),
        (65_535, 1000, 333),
        (130, 7, 3),
        (130, 130, 65),
        (64, 63, 1),
    ];
    for (cap, len, late) in rows {
        let mut window = Window::open(rt.alloc(), cap).expect(&rt, "memory");
        for _ in 0..100 {
            assert!(rt; goes_round(&mut window, &mut piece[..len], late));
        }
    }
}

#[test]
fn cleared(rt: HostRuntime) {
    let mut window = Window::open(rt.alloc(), 10).expect(&rt, "memory for 10");
    let mut room = [0u8; 8];
    window.put(0, b"abcdefgh");
    window.put(9, b"j");
    assert_eq!(rt; window.take(&mut room), 8);
    window.clear(5);
    assert!(rt; window.is_free_from(0));
    window.put(0, b"0123456789");
    assert_eq!(rt; (window.taken(), window.ready(), window.cap()), (0, 5, 5));
}

#[test]
fn moves_on(rt: HostRuntime) {
    let mut window = Window::open(rt.alloc(), 10).expect(&rt, "memory for 10");
    let mut room = [0u8; 8];
    assert!(rt; window.is_empty());
    window.pass(7);
    assert!(rt; window.is_empty());
    window.put(5, b"abcdefghijklmn");
    assert!(rt; !window.is_empty());
    assert_eq!(rt; (window.taken(), window.ready()), (7, 10));
    assert_eq!(rt; window.take(&mut room), 8);
    assert_eq!(rt; &room, b"cdefghij");
    assert_eq!(rt; (window.taken(), window.ready()), (15, 2));
}

/// Whether the last of 200 places is kept behind a gap.
fn keeps_last(window: &mut Window) -> bool {
    for step in [
        Step::Put(199, b"yz"),
        Step::Ready(0),
        Step::IsFree(199, false),
        Step::IsFree(200, true),
    ] {
        if !shows(window, step) {
            return false;
        }
    }
    true
}

#[test]
fn last_places(rt: HostRuntime) {
    let mut window = Window::open(rt.alloc(), 200).expect(&rt, "memory for 200");
    window.put(0, b"abc");
    window.put(150, b"x");
    window.clear(200);
    assert!(rt; keeps_last(&mut window));
}
