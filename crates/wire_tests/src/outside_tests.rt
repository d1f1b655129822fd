//! Each public call on its happy path, and what no clause says: the sizes of reads, that a call can succeed, what stands in a
//! file, and the system's own errors.
ghost use Rattle.std.specs.Prelude.{◌≡◌, IfOk, None};

use efi_outside::{
    DropSink, Failed, FileSink, InputFault, MemSink, MemSource, Miss, PIECE, Sink, Source, StdSink,
    StdSource, SureSink, SureSource, read_all, write_all,
};
use std::alloc::Global;
use std::fs;
use std::test::Fail;

/// All octets of a source that is to fail nowhere are the octets that it was made of.
fn read_back(alloc: Global, octets: Vec<u8>) -> Result<Vec<u8>, InputFault>
    ensures { IfOk result (λ input. input.items ≡ octets.items) }
{
    read_all(alloc, &mut MemSource::new(octets, Vec::new(alloc)))
}

#[test]
fn sources_in_memory(rt: HostRuntime) -> Result<(), Fail> {
    let octets = b"abcde";
    let rows: [(&[u64], [Result<usize, Failed>; 3]); 4] = [
        (&[], [Ok(3), Ok(2), Ok(0)]),
        (&[1], [Err(Failed), Ok(3), Ok(2)]),
        (&[2], [Ok(3), Err(Failed), Ok(2)]),
        (&[3, 1], [Err(Failed), Ok(3), Err(Failed)]),
    ];
    for (failing, wants) in rows {
        let mut source = MemSource::new(octets.to_vec(rt.alloc())?, failing.to_vec(rt.alloc())?);
        for want in wants {
            let mut room = [0; 3];
            assert_eq!(rt; source.read(&mut room), want, "{failing:?}");
        }
    }
    let mut sure = SureSource::new(octets.to_vec(rt.alloc())?);
    let mut room = [0; 3];
    assert_eq!(rt; sure.read(&mut room), Ok(3));
    assert_eq!(rt; &room, b"abc");
    assert_eq!(rt; sure.octets(), b"de".as_slice());
    Ok(())
}

#[test]
fn sinks_in_memory(rt: HostRuntime) -> Result<(), Fail> {
    let rows: [(&[u64], &[u8]); 4] = [
        (&[], b"abcdef"),
        (&[1], b"cdef"),
        (&[2], b"abef"),
        (&[1, 2, 3], b""),
    ];
    for (failing, want) in rows {
        let mut sink = MemSink::new(rt.alloc(), failing.to_vec(rt.alloc())?);
        for (n, piece) in [b"ab", b"cd", b"ef"].iter().enumerate() {
            let fails = failing.contains(&(n as u64 + 1));
            let answer = if fails { Err(Miss::Failed) } else { Ok(2) };
            assert_eq!(rt; sink.write(piece.as_slice()), answer, "{failing:?}");
        }
        assert_eq!(rt; sink.octets(), want, "{failing:?}");
    }
    let mut sure = SureSink::new(rt.alloc());
    assert_eq!(rt; write_all(&mut sure, b"abc"), Ok(()));
    assert_eq!(rt; write_all(&mut DropSink, b"abc"), Ok(()));
    assert_eq!(rt; sure.octets(), b"abc".as_slice());
    Ok(())
}

/// A source that keeps the size of the largest room, and how often it was read.
#[derive(Drop)]
struct Measured {
    inner: SureSource,
    largest: usize,
    reads: u8,
}

impl Source for Measured {
    ghost left = { λ _. None };

    ghost faults = { λ _. 0 };

    fn read(&mut self, room: &mut [u8]) -> Result<usize, Failed> {
        self.largest = self.largest.max(room.len());
        self.reads = self.reads.saturating_add(1);
        self.inner.read(room)
    }
}

#[test]
fn whole_inputs(rt: HostRuntime) -> Result<(), Fail> {
    let octets = vec![in rt.alloc(); 5; 100_000]?;
    let mut source = Measured {
        inner: SureSource::new(octets.clone()?),
        largest: 0,
        reads: 0,
    };
    assert_eq!(rt;
        read_all(rt.alloc(), &mut source)?.as_slice(),
        octets.as_slice()
    );
    assert_eq!(rt; (source.largest, source.reads), (PIECE, 3));
    assert_eq!(rt; read_back(rt.alloc(), octets)?.len(), 100_000);
    for number in 1..4 {
        let mut source = MemSource::new(
            vec![in rt.alloc(); 5; 100_000]?,
            [number].to_vec(rt.alloc())?,
        );
        assert_eq!(rt;
            read_all(rt.alloc(), &mut source).err(),
            Some(InputFault::Failed)
        );
    }
    Ok(())
}

#[test]
fn the_system(rt: HostRuntime) -> Result<(), Fail> {
    let mut source = StdSource::new(b"abc".as_slice());
    assert_eq!(rt;
        read_all(rt.alloc(), &mut source)?.as_slice(),
        b"abc".as_slice()
    );
    let mut sink = StdSink::new(Vec::new(rt.alloc()));
    assert_eq!(rt; write_all(&mut sink, b"abc"), Ok(()));
    assert_eq!(rt;
        write_all(&mut FileSink::new(&rt, "no folder/file"), b"abc"),
        Err(Miss::Failed)
    );
    Ok(())
}

/// A file is made at the first write, and has the pieces in their order.
#[test]
fn a_file(rt: HostRuntime) -> Result<(), Fail> {
    let path = "pieces.out";
    let mut sink = FileSink::new(&rt, path);
    assert!(rt; fs::read(&rt, path).is_err());
    assert_eq!(rt; write_all(&mut sink, b"first, "), Ok(()));
    assert_eq!(rt; write_all(&mut sink, b"second"), Ok(()));
    drop(sink);
    assert_eq!(rt;
        fs::read(&rt, path)?.as_slice(),
        b"first, second".as_slice()
    );
    Ok(())
}
