//! Moments on a case from outside.
use efi_base::Tick;
use efi_timer::Timers;
use std::test::Fail;

#[test]
fn moments(rt: HostRuntime) -> Result<(), Fail> {
    let mut timers = Timers::new(rt.alloc());
    assert_eq!(rt; timers.next(), None);
    for (id, at) in [(4, 30), (2, 20), (9, 10), (1, 20), (9, 20)] {
        timers.set(id, Tick(at))?;
    }
    timers.clear(4);
    assert_eq!(rt; timers.next(), Some(Tick(20)));
    assert_eq!(rt; timers.due(Tick(19)), None);
    for id in [1, 2, 9] {
        assert_eq!(rt; timers.due(Tick(20)), Some(id));
    }
    assert_eq!(rt; timers.due(Tick(99)), None);
    Ok(())
}
