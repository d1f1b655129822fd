//! What the lines of scripts say.
use efi_base::{Addr, Ip4, Mac, Peer, Proto, Tick, TokenId};
use script_text::{
    ArpCall, Handle, MnpSettings, Path, Script, ScriptReader, Settings, SnpCall, Step, TcpSettings,
    UdpSettings, Work,
};
use std::alloc::Global;
use std::process::Abort;
use text_base::TextFault;

/// A line of each kind, and a few works.
const TEXT: &[u8] = b"efiscript 1
mac 02:00:00:00:00:09
seed 7
snp filters 5
address 10.0.0.2 255.0.0.0
address off
create udp4
create tcp4
create mnp
configure 1 udp4 port 5000 share peer 1.2.3.4 67 timeout 500
configure 2 tcp4 port 80 at 10.0.0.2 255.0.0.0
configure 3 mnp type 34997 unicast broadcast
post 1 send 10.0.0.1 7 6869
post 2 receive 0
destroy a2
reset 1
cancel 1 2
cancel 1 all
route add 10.0.0.0 255.0.0.0 0.0.0.0
create arp
arpadd 4 10.0.0.1 02:00:00:00:00:02 dynamic
dnscache 4 a.b 10.0.0.9 60
tick 4000
frame 02000000000102000000000288b541
end";

fn script_of(alloc: Global, text: &[u8]) -> Result<Script, TextFault> {
    let mut reader = ScriptReader::new(alloc);
    reader.feed(text)?;
    reader.finish()
}

fn is_call(place: usize, step: &Step) -> bool {
    match (place, step) {
        (0, Step::Snp(call)) => *call == SnpCall::Filters(5),
        (1, Step::Address(addr)) => *addr == Some(HOME),
        (2, Step::Address(addr)) => addr.is_none(),
        (3, Step::Create(proto)) => *proto == Proto::Udp4,
        (4, Step::Create(proto)) => *proto == Proto::Tcp4,
        (5, Step::Create(proto)) => *proto == Proto::Mnp,
        (15, Step::AddRoute(path)) => *path
            == Path {
                network: Addr {
                    ip: Ip4(0x0A00_0000),
                    mask: 0xFF00_0000,
                },
                gate: Ip4(0),
            },
        (16, Step::Create(proto)) => *proto == Proto::Arp,
        (19, Step::Tick(tick)) => *tick == Tick(4_000),
        (20, Step::Frame(octets)) => octets.as_slice() == FRAME.as_slice(),
        _ => false,
    }
}

/// The octets of the frame.
const FRAME: [u8; 15] = *b"\x02\0\0\0\0\x01\x02\0\0\0\0\x02\x88\xb5\x41";

/// 10.0.0.2, in a network of the first octet.
const HOME: Addr = Addr {
    ip: Ip4(0x0A00_0002),
    mask: 0xFF00_0000,
};

fn is_configured(place: usize, handle: Handle, settings: &Settings) -> bool {
    match (place, settings) {
        (6, Settings::Udp4(said)) => {
            handle == Handle::Created(1)
                && *said
                    == UdpSettings {
                        port: 5_000,
                        share: true,
                        at: None,
                        peer: Some(Peer {
                            addr: Ip4(0x0102_0304),
                            port: 67,
                        }),
                        broadcast: false,
                        timeout: Some(500),
                    }
        }
        (7, Settings::Tcp4(said)) => {
            handle == Handle::Created(2)
                && *said
                    == TcpSettings {
                        port: 80,
                        at: Some(HOME),
                        to: None,
                    }
        }
        (8, Settings::Mnp(said)) => {
            handle == Handle::Created(3)
                && *said
                    == MnpSettings {
                        kind: 34_997,
                        unicast: true,
                        multicast: false,
                        broadcast: true,
                        promiscuous: false,
                    }
        }
        _ => false,
    }
}

fn is_of_child(place: usize, step: &Step) -> bool {
    match (place, step) {
        (6 | 7 | 8, Step::Configure(handle, settings)) => is_configured(place, *handle, settings),
        (9, Step::Post(handle, Work::SendDatagram(dest, port, octets))) => {
            *handle == Handle::Created(1)
                && *dest == Ip4(0x0A00_0001)
                && *port == 7
                && octets.as_slice() == b"hi".as_slice()
        }
        (10, Step::Post(handle, Work::ReceiveInto(room))) => {
            *handle == Handle::Created(2) && *room == 0
        }
        (11, Step::Destroy(handle)) => *handle == Handle::Accepted(TokenId(2)),
        (12, Step::Reset(handle)) => *handle == Handle::Created(1),
        (13, Step::Cancel(handle, token)) => {
            *handle == Handle::Created(1) && *token == Some(TokenId(2))
        }
        (14, Step::Cancel(_, token)) => token.is_none(),
        (17, Step::Arp(handle, call)) => {
            *handle == Handle::Created(4)
                && *call == ArpCall::Add(Ip4(0x0A00_0001), Mac([2, 0, 0, 0, 0, 2]), false)
        }
        (18, Step::DnsCache(_, name, ip, secs)) => {
            name.as_slice() == b"a.b".as_slice() && *ip == Ip4(0x0A00_0009) && *secs == 60
        }
        _ => false,
    }
}

fn steps_are_said(rt: &impl Abort, script: &Script) {
    for (place, step) in script.steps.as_slice().iter().enumerate() {
        assert!(rt;
            is_call(place, step) || is_of_child(place, step),
            "step {place}"
        );
    }
}

#[test]
fn lines_say_steps(rt: HostRuntime) {
    match script_of(rt.alloc(), TEXT) {
        Ok(script) => {
            assert_eq!(rt; script.mac, Mac([2, 0, 0, 0, 0, 9]));
            assert_eq!(rt; script.seed, 7);
            assert_eq!(rt; script.steps.len(), 21);
            steps_are_said(&rt, &script);
        }
        Err(fault) => assert!(rt; false, "{fault:?}"),
    }
    match script_of(rt.alloc(), b"efiscript 1\nend\n") {
        Ok(script) => {
            assert_eq!(rt; script.mac, Mac([2, 0, 0, 0, 0, 1]));
            assert_eq!(rt; script.seed, 1);
            assert!(rt; script.steps.is_empty());
        }
        Err(fault) => assert!(rt; false, "{fault:?}"),
    }
}
