//! Children under handles.
use crate::words::{Nic, core_at, post, serial_of};
use efi_base::Refuse;
use efi_book::Children;
use std::test::Fail;

/// 257 children of callers, and two that the stack keeps.
#[test]
fn limits(rt: HostRuntime) -> Result<(), Fail> {
    let mut core = core_at(rt.alloc(), 1, 1)?;
    for serial in 1..257u64 {
        assert_eq!(rt; serial_of(core.create()), Ok(serial));
    }
    assert_eq!(rt; serial_of(core.create()), Err(Refuse::NotReady));
    assert_eq!(rt; serial_of(core.create_own()), Ok(257));
    assert_eq!(rt; serial_of(core.create_own()), Err(Refuse::NotReady));
    assert_eq!(rt; (core.children.len(), core.children.own_len()), (256, 1));
    Ok(())
}

/// A handle of a child that is gone, also after its place is used again.
#[test]
fn stale(rt: HostRuntime) -> Result<(), Fail> {
    let mut core = core_at(rt.alloc(), 1, 1)?;
    let gone = core.create()?;
    let kept = core.create()?;
    assert!(rt; !core.is_busy());
    core.configure(kept, Some(5))?;
    assert!(rt; core.is_busy());
    core.destroy(gone)?;
    let again = core.create()?;
    assert_eq!(rt; (again.key, again.serial), (gone.key, 3));
    assert_eq!(rt; core.mode(gone), Err(Refuse::BadHandle));
    assert_eq!(rt; core.configure(gone, Some(1)), Err(Refuse::BadHandle));
    assert_eq!(rt; core.cancel(gone, None), Err(Refuse::BadHandle));
    assert_eq!(rt; core.destroy(gone), Err(Refuse::BadHandle));
    assert_eq!(rt; post(&mut core, gone, 1), Err(Refuse::BadHandle));
    assert_eq!(rt;
        (core.mode(again), core.mode(kept)),
        (Ok(None), Ok(Some(5)))
    );
    assert_eq!(rt; core.configure(kept, Some(6)), Err(Refuse::AlreadyStarted));
    assert!(rt; core.is_callers(again));
    Ok(())
}

/// The last serial.
#[test]
fn serials_end(rt: HostRuntime) -> Result<(), Fail> {
    let mut core = core_at(rt.alloc(), u64::MAX - 1, 1)?;
    let last = core.create()?;
    assert_eq!(rt; last.serial, u64::MAX - 1);
    assert_eq!(rt; serial_of(core.create()), Err(Refuse::Exhausted));
    assert_eq!(rt; serial_of(core.create_own()), Err(Refuse::Exhausted));
    core.destroy(last)?;
    assert_eq!(rt; serial_of(core.create()), Err(Refuse::Exhausted));
    Ok(())
}

/// Values of other types than configurations.
#[test]
fn values(rt: HostRuntime) -> Result<(), Fail> {
    let mut pair = Children::with_room(rt.alloc(), Nic, 2)?;
    let first = pair.create(7u8)?;
    let second = pair.create(8)?;
    match pair.create(9) {
        Ok(_) => assert!(rt; false),
        Err(refused) => assert_eq!(rt; (refused.why, refused.work), (Refuse::NotReady, 9)),
    }
    pair.put(first, 4);
    if let Some(value) = pair.get_mut(second) {
        *value = 5;
    }
    assert_eq!(rt; (pair.get(first), pair.get(second)), (Some(&4), Some(&5)));
    assert_eq!(rt; pair.destroy(second), Ok(5));
    assert!(rt; pair.get_mut(second).is_none());
    Ok(())
}
