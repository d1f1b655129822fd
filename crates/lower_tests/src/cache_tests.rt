//! The ARP cache.
use arp_cache::{Cache, Entry, reply_to};
use efi_base::{Ip4, Mac, Refuse, Tick};
use std::test::Fail;
use wire_link::{Arp, REPLY, REQUEST};

const STATION: Mac = Mac([2, 0, 0, 0, 0, 1]);

const OTHER: Mac = Mac([2, 0, 0, 0, 0, 2]);

/// A request of the station with this address for 10.0.0.2.
fn request(ip: u32, mac: Mac) -> Arp {
    Arp {
        op: REQUEST,
        sha: mac,
        spa: Ip4(ip),
        tha: Mac([0; 6]),
        tpa: Ip4(0x0A00_0002),
    }
}

fn entry(ip: u32, fixed: bool, at: u64) -> Entry {
    Entry {
        ip: Ip4(ip),
        mac: OTHER,
        fixed,
        refreshed: Tick(at),
        life: 100,
    }
}

/// What is heard for another is no news of strangers, and what is heard of 0.0.0.0 is answered and not kept.
#[test]
fn reception(rt: HostRuntime) -> Result<(), Fail> {
    let mut cache = Cache::new(rt.alloc())?;
    cache.hear(&request(1, OTHER), Tick(0), None);
    assert_eq!(rt; cache.find(Ip4(1)), None);
    cache.hear(&request(1, OTHER), Tick(0), Some(100));
    assert_eq!(rt; cache.find(Ip4(1)), Some(OTHER));
    cache.hear(&request(1, STATION), Tick(50), None);
    assert_eq!(rt; cache.find(Ip4(1)), Some(STATION));
    cache.expire(Tick(149));
    assert_eq!(rt; cache.find(Ip4(1)), Some(STATION));
    cache.expire(Tick(150));
    assert_eq!(rt; cache.find(Ip4(1)), None);
    cache.hear(&request(0, OTHER), Tick(150), Some(0));
    assert_eq!(rt; cache.find(Ip4(0)), None);
    Ok(())
}

#[test]
fn answers(rt: HostRuntime) -> Result<(), Fail> {
    let asked = request(0, OTHER);
    assert!(rt; reply_to(&asked, STATION, false).is_none());
    let Some(reply) = reply_to(&asked, STATION, true) else {
        panic!(rt; "no reply");
    };
    assert_eq!(rt;
        (reply.op, reply.sha, reply.spa),
        (REPLY, STATION, Ip4(0x0A00_0002))
    );
    assert_eq!(rt; (reply.tha, reply.tpa), (OTHER, Ip4(0)));
    assert!(rt; reply_to(&reply, STATION, true).is_none());
    Ok(())
}

/// The 257th entry takes the place of the one that was heard longest ago, and no place of a fixed one.
#[test]
fn places(rt: HostRuntime) -> Result<(), Fail> {
    let mut cache = Cache::new(rt.alloc())?;
    cache.add(entry(1, true, 0), false)?;
    cache.add(entry(2, false, 6), false)?;
    cache.add(entry(3, false, 5), false)?;
    for ip in 4..257 {
        cache.add(entry(ip, true, 1), false)?;
    }
    cache.add(entry(999, true, 9), false)?;
    assert_eq!(rt;
        (cache.find(Ip4(3)), cache.find(Ip4(2))),
        (None, Some(OTHER))
    );
    cache.add(entry(1_000, true, 9), false)?;
    assert_eq!(rt;
        cache.add(entry(1_001, false, 9), false),
        Err(Refuse::NotReady)
    );
    assert_eq!(rt;
        cache.add(entry(1_000, true, 9), false),
        Err(Refuse::AccessDenied)
    );
    assert_eq!(rt; cache.add(entry(1_000, false, 9), true), Ok(()));
    assert_eq!(rt;
        (cache.flush(), cache.flush()),
        (Ok(()), Err(Refuse::NotFound))
    );
    assert_eq!(rt;
        (cache.delete(Ip4(1)), cache.delete(Ip4(1))),
        (Ok(()), Err(Refuse::NotFound))
    );
    Ok(())
}
