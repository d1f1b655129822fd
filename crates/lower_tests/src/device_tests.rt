//! The device over links in memory.
use drv_snp::{QUEUE, Sent, Snp, State};
use efi_base::{Bytes, Field, Mac, Refuse};
use efi_link::{LEAST_ROOM, Link, MemLink};
use std::alloc::Global;
use std::test::Fail;

const STATION: Mac = Mac([2, 0, 0, 0, 0, 1]);

/// A device that frames pass.
fn device(alloc: Global) -> Result<Snp, Fail> {
    let mut snp = Snp::new(alloc, STATION)?;
    snp.start()?;
    snp.initialize()?;
    Ok(snp)
}

fn frame(alloc: Global, octets: usize) -> Result<Bytes, Fail> {
    Ok(Bytes::from_vec(vec![in alloc; 7; octets]?))
}

/// Why a frame of so many octets isn't taken, and how many octets are handed back.
fn refusal(alloc: Global, snp: &mut Snp, octets: usize) -> Result<(Option<Refuse>, usize), Fail> {
    match snp.transmit(frame(alloc, octets)?, 9) {
        Ok(()) => Ok((None, 0)),
        Err(refused) => Ok((Some(refused.why), refused.work.len())),
    }
}

#[test]
fn states(rt: HostRuntime) -> Result<(), Fail> {
    let mut snp = Snp::new(rt.alloc(), STATION)?;
    assert_eq!(rt;
        (snp.stop(), snp.initialize()),
        (Err(Refuse::NotStarted), Err(Refuse::NotStarted))
    );
    assert_eq!(rt;
        (snp.start(), snp.start()),
        (Ok(()), Err(Refuse::AlreadyStarted))
    );
    assert_eq!(rt;
        (snp.filters(1), snp.shutdown(true)),
        (Err(Refuse::NotStarted), Err(Refuse::NotStarted))
    );
    assert_eq!(rt;
        (snp.initialize(), snp.initialize()),
        (Ok(()), Err(Refuse::AlreadyStarted))
    );
    assert_eq!(rt;
        (snp.stop(), snp.shutdown(true)),
        (Err(Refuse::AlreadyStarted), Err(Refuse::AccessDenied))
    );
    assert_eq!(rt; (snp.shutdown(false), snp.stop()), (Ok(()), Ok(())));
    assert_eq!(rt; snp.state(), State::Stopped);
    Ok(())
}

/// What is heard by each single filter: the station's, another's, a group's and everyone's frame.
#[test]
fn filters(rt: HostRuntime) -> Result<(), Fail> {
    let mut snp = device(rt.alloc())?;
    assert_eq!(rt; snp.filters(0x20), Err(Refuse::BadConfig(Field::Filter)));
    let heads: [[u8; 14]; 4] = [
        [2, 0, 0, 0, 0, 1, 2, 0, 0, 0, 0, 2, 8, 0],
        [2, 0, 0, 0, 0, 3, 2, 0, 0, 0, 0, 2, 8, 0],
        [1, 0, 94, 0, 0, 1, 2, 0, 0, 0, 0, 2, 8, 0],
        [255, 255, 255, 255, 255, 255, 2, 0, 0, 0, 0, 2, 8, 0],
    ];
    let rows = [
        (0x05, [true, false, false, true]),
        (0x00, [false, false, false, false]),
        (0x01, [true, false, false, false]),
        (0x02, [false, false, true, false]),
        (0x04, [false, false, false, true]),
        (0x08, [true, true, true, true]),
        (0x10, [false, false, true, false]),
    ];
    for (mask, wanted) in &rows {
        snp.filters(*mask)?;
        for (head, hears) in heads.iter().zip(wanted) {
            assert_eq!(rt; snp.hear(head), *hears, "filter {mask}");
        }
    }
    assert!(rt; !snp.hear(&[2, 0, 0, 0, 0, 1, 2, 0, 0, 0, 0, 2, 8]));
    Ok(())
}

#[test]
fn room(rt: HostRuntime) -> Result<(), Fail> {
    let mut snp = device(rt.alloc())?;
    let length = Some(Refuse::BadConfig(Field::Length));
    assert_eq!(rt; refusal(rt.alloc(), &mut snp, 59)?, (length, 59));
    assert_eq!(rt; refusal(rt.alloc(), &mut snp, 1_515)?, (length, 1_515));
    for _ in 0..QUEUE {
        assert_eq!(rt; refusal(rt.alloc(), &mut snp, 60)?, (None, 0));
    }
    assert_eq!(rt;
        refusal(rt.alloc(), &mut snp, 1_514)?,
        (Some(Refuse::NotReady), 1_514)
    );
    Ok(())
}

/// The second of three sends is to fail: its frame is lost, and the third goes all the same.
#[test]
fn frames_go_once_each(rt: HostRuntime) -> Result<(), Fail> {
    let mut snp = device(rt.alloc())?;
    let mut link = MemLink::new(rt.alloc(), Vec::new(rt.alloc()), vec![in rt.alloc(); 2]?);
    for mark in 0..3 {
        assert!(rt; snp.transmit(frame(rt.alloc(), 60)?, mark).is_ok());
    }
    for (mark, ok) in [(0, true), (1, false), (2, true)] {
        assert_eq!(rt; snp.flush_one(&mut link)?, Some(Sent { mark, ok }));
    }
    assert_eq!(rt; snp.flush_one(&mut link)?, None);
    assert_eq!(rt; link.tries().len(), 3);
    Ok(())
}

#[test]
fn nothing_comes_of_an_empty_link(rt: HostRuntime) -> Result<(), Fail> {
    let mut link = MemLink::new(rt.alloc(), Vec::new(rt.alloc()), Vec::new(rt.alloc()));
    let mut room = vec![in rt.alloc(); 0; LEAST_ROOM]?;
    assert_eq!(rt; link.recv(&mut room), Ok(0));
    Ok(())
}
