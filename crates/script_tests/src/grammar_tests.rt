//! Which texts are scripts, and where the first bad line of others begins.
use script_text::ScriptReader;
use std::alloc::Global;
use std::process::Abort;
use std::test::Fail;
use text_base::TextFault;

/// A text in each row, with `;` for LF. The first bad line, or the end without the last line, stands behind `|`.
const ROWS: &str = "\
efiscript 1;end;
efiscript 1;end
efiscript 1;mac 02:00:00:00:00:09;seed 4294967295;end;
efiscript 1;seed 0;snp start;snp initialize;snp shutdown;snp stop;snp filters 255;end;
efiscript 1;address 10.0.0.2 255.0.0.0;address off;route add 0.0.0.0 0.0.0.0 10.0.0.9;route remove 0.0.0.0 0.0.0.0 10.0.0.9;end;
efiscript 1;create mnp;create arp;create ip4;create udp4;create tcp4;create dhcp4;create dns4;create mtftp4;create http;create boot;destroy 10;reset 9;end;
efiscript 1;create mnp;configure 1 mnp type 65535;configure 1 mnp type 0 unicast multicast broadcast promiscuous;configure 1 mnp type 5 multicast promiscuous;post 1 receive;post 1 send 01:02:03:04:05:06 65535 -;end;
efiscript 1;create arp;configure 1 arp ip 10.0.0.2 entry 4294967295 tries 10 gap 1;post 1 request \
10.0.0.1;arpadd 1 10.0.0.1 02:00:00:00:00:02 fixed;arpadd 1 10.0.0.3 02:00:00:00:00:03 dynamic;arpfind 1 10.0.0.1;arpdelete 1 10.0.0.1;arpflush 1;end;
efiscript 1;create ip4;configure 1 ip4 proto 255;configure 1 ip4 proto 0 at 10.0.0.2 255.0.0.0;configure 1 ip4 any;configure 1 ip4 any at 10.0.0.2 255.0.0.0;post 1 receive;post 1 send 10.0.0.1 255 00ff;end;
efiscript 1;create udp4;configure 1 udp4 port 0;configure 1 udp4 port 65535 share at 1.2.3.4 255.0.0.0 peer 5.6.7.8 65535 broadcast timeout 4294967295;post 1 receive;post 1 send 10.0.0.1 65535 6869;end;
efiscript 1;create tcp4;configure 1 tcp4 port 0 at 1.2.3.4 255.0.0.0 to 5.6.7.8 80;configure 1 tcp4 port 80;post 1 receive 1073741825;post 1 send 41;post 1 connect;post 1 accept;post 1 close;post 1 abort;post a4 receive 0;destroy a4;end;
efiscript 1;create dhcp4;configure 1 dhcp4;post 1 start;post 1 renew;post 1 release;cancel 1 3;cancel 1 all;end;
efiscript 1;create dns4;configure 1 dns4 server 1.1.1.1;configure 1 dns4 server 1.1.1.1 2.2.2.2 3.3.3.3;post 1 resolve boot.example;post 1 reverse 1.1.1.1;dnscache 1 a.b 10.0.0.9 4294967295;end;
efiscript 1;create mtftp4;configure 1 mtftp4 server 10.0.0.1 blksize 65535;post 1 read image 1073741825;post 1 write image 00;post 1 info image;end;
efiscript 1;create http;configure 1 http;post 1 get http://10.0.0.1/;post 1 response 1073741825;end;
efiscript 1;create boot;configure 1 boot;post 1 load 1073741825;end;
efiscript 1;tick 0;tick 0;tick 1099511627776;frame 0000000000000000000000000000;end;
efiscript 1;snp start;snp initialize;create udp4;create udp4;configure 1 udp4 port 5000 share;configure 2 udp4 port 5000 share;post 1 receive;post 2 receive;post 1 receive;post 1 receive;destroy 1;post 1 receive;cancel 2 2;cancel 2 2;create udp4;post 1 receive;end;
efiscript 1;snp start;snp initialize;address 10.0.0.2 255.0.0.0;create arp;configure 1 arp ip 10.0.0.2 entry 0 tries 3 gap 1000;post 1 request \
10.0.0.1;frame 020000000001020000000002080600010800060400020200000000020a0000010200000000010a000002;post 1 request \
10.0.0.1;end;
efiscript 1;snp start;snp initialize;address 10.0.0.2 255.0.0.0;create udp4;configure 1 udp4 port 5000 timeout 500;post 1 send 10.0.0.1 7 6869;post 1 receive;tick 499;tick 500;end;
efiscript 1;snp start;snp initialize;address 10.0.0.2 255.0.0.0;create tcp4;configure 1 tcp4 port 0 to 10.0.0.1 80;post 1 connect;tick 1000;tick 2000;tick 3000;end;
efiscript 1;snp start;snp initialize;address 10.0.0.2 255.0.0.0;create dns4;configure 1 dns4 server 10.0.0.1;post 1 resolve boot.example;tick 3000;dnscache 1 a.b 10.0.0.9 60;post 1 resolve a.b;end;
efiscript 1;snp start;snp initialize;address 10.0.0.2 255.0.0.0;create mtftp4;configure 1 mtftp4 server 10.0.0.1 blksize 0;post 1 read image 512;tick 3000;end;
efiscript 1;snp start;snp initialize;create dhcp4;configure 1 dhcp4;post 1 start;tick 4000;tick 12000;tick 28000;tick 60000;end;
efiscript 1;snp start;snp initialize;create mnp;configure 1 mnp type 34997 unicast;post 1 receive;post 1 receive;post 1 receive;frame ffffffffffff02000000000288b54142;frame 02000000000102000000000288b54142;cancel 1 2;reset 1;post 1 receive;end;
|;
|efiscript 2;end;
|efiscript 1 ;end;
|end;
efiscript 1;|destroy 1;end;
efiscript 1;|efiscript 1;end;
efiscript 1;|mac 03:00:00:00:00:09;end;
efiscript 1;seed 1;|mac 02:00:00:00:00:09;end;
efiscript 1;seed 1;|seed 1;end;
efiscript 1;|seed 4294967296;end;
efiscript 1;snp start;|seed 1;end;
efiscript 1;tick 0;|mac 02:00:00:00:00:09;end;
efiscript 1;|snp filters 256;end;
efiscript 1;|snp  start;end;
efiscript 1;|snp start ;end;
efiscript 1;|snp start\r;end;
efiscript 1;|snp start\0;end;
efiscript 1;|address 10.0.0.2;end;
efiscript 1;|address off 1.2.3.4;end;
efiscript 1;|route add 0.0.0.0 0.0.0.0;end;
efiscript 1;|create tcp;end;
efiscript 1;create mnp;|destroy 0;end;
efiscript 1;create mnp;|destroy 2;create mnp;end;
efiscript 1;create mnp;|reset 01;end;
efiscript 1;create mnp;|destroy a1;post 1 receive;end;
efiscript 1;create mnp;post 1 receive;|destroy a2;end;
efiscript 1;create mnp;post 1 receive;|configure a1 mnp type 1;end;
efiscript 1;create mnp;|cancel 1 1;post 1 receive;end;
efiscript 1;create mnp;post 1 receive;|cancel 1 0;end;
efiscript 1;create mnp;post 1 receive;|cancel 1 2;end;
efiscript 1;create mnp;|configure 1 udp4 port 1;end;
efiscript 1;create mnp;|configure 1 mnp type 65536;end;
efiscript 1;create mnp;|configure 1 mnp type 1 multicast unicast;end;
efiscript 1;create mnp;|configure 1 mnp type 1 unicast unicast;end;
efiscript 1;create mnp;|post 1 connect;end;
efiscript 1;create mnp;|post 1 receive 7;end;
efiscript 1;create mnp;|post 1 send 10.0.0.1 7 00;end;
efiscript 1;create mnp;|post 1 send 02:00:00:00:00:02 65536 00;end;
efiscript 1;create mnp;|arpflush 1;end;
efiscript 1;create arp;|configure 1 arp ip 10.0.0.2 entry 0 tries 0 gap 1;end;
efiscript 1;create arp;|configure 1 arp ip 10.0.0.2 entry 0 tries 11 gap 1;end;
efiscript 1;create arp;|configure 1 arp ip 10.0.0.2 entry 0 tries 1 gap 0;end;
efiscript 1;create arp;|configure 1 arp ip 10.0.0.2 tries 1 entry 0 gap 1;end;
efiscript 1;create arp;|arpadd 1 10.0.0.1 02:00:00:00:00:02;end;
efiscript 1;create ip4;|configure 1 ip4 proto 256;end;
efiscript 1;create ip4;|configure 1 ip4 any at 10.0.0.2;end;
efiscript 1;create ip4;|post 1 send 10.0.0.1 256 00;end;
efiscript 1;create udp4;|configure 1 udp4 port 65536;end;
efiscript 1;create udp4;|configure 1 udp4 port 1 broadcast share;end;
efiscript 1;create udp4;|configure 1 udp4 port 1 peer 1.2.3.4;end;
efiscript 1;create udp4;|configure 1 udp4 port 1 timeout 4294967296;end;
efiscript 1;create udp4;|post 1 send 10.0.0.1 65536 00;end;
efiscript 1;create udp4;|post 1 send 10.0.0.1 7 0;end;
efiscript 1;create udp4;|post 1 send 10.0.0.1 7 0A;end;
efiscript 1;create udp4;|post 1 send 10.0.0.1 7;end;
efiscript 1;create tcp4;|post 1 receive;end;
efiscript 1;create tcp4;|post 1 receive 1073741826;end;
efiscript 1;create tcp4;|configure 1 tcp4 port 1 to 1.2.3.4 65536;end;
efiscript 1;create dhcp4;|configure 1 dhcp4 1;end;
efiscript 1;create dns4;|configure 1 dns4 server 1.1.1.1 2.2.2.2 3.3.3.3 4.4.4.4;end;
efiscript 1;create dns4;|configure 1 dns4 server;end;
efiscript 1;create dns4;|post 1 resolve a..b;end;
efiscript 1;create dns4;|dnscache 1 a.b 10.0.0.9 4294967296;end;
efiscript 1;create mtftp4;|configure 1 mtftp4 server 10.0.0.1 blksize 65536;end;
efiscript 1;create mtftp4;|post 1 read image 1073741826;end;
efiscript 1;create http;|post 1 get ;end;
efiscript 1;create http;|post 1 get a b;end;
efiscript 1;create http;|post 1 response 1073741826;end;
efiscript 1;create boot;|post 1 load 1073741826;end;
efiscript 1;tick 5;|tick 4;end;
efiscript 1;|tick 1099511627777;end;
efiscript 1;|frame 00000000000000000000000000;end;
efiscript 1;|frame -;end;
efiscript 1;|frames;end;
efiscript 1;tick 1;|tick 0;tick x;end;
efiscript 1;end;|end;
efiscript 1;end;|x
efiscript 1;end;| 
efiscript 1;tick 1;|
efiscript 1;tick 1|
efiscript 1;en|
";

/// Where a text is bad, and that it isn't told for want of memory.
fn place_of(rt: &impl Abort, fault: TextFault) -> Option<u64> {
    match fault {
        TextFault::BadAt(place) => Some(place),
        TextFault::OutOfResources => {
            assert!(rt; false, "no memory");
            None
        }
    }
}

fn place_in_pieces(rt: &impl Abort, alloc: Global, text: &[u8]) -> Option<u64> {
    let mut reader = ScriptReader::new(alloc);
    for octet in text {
        if let Err(fault) = reader.feed(&[*octet]) {
            return place_of(rt, fault);
        }
    }
    match reader.finish() {
        Ok(_) => None,
        Err(fault) => place_of(rt, fault),
    }
}

fn place_in_one(rt: &impl Abort, alloc: Global, text: &[u8]) -> Option<u64> {
    let mut reader = ScriptReader::new(alloc);
    if let Err(fault) = reader.feed(text) {
        // and the same fault for ever
        assert_eq!(rt; reader.feed(b"x"), Err(fault));
        assert_eq!(rt; reader.finish().err(), Some(fault));
        return place_of(rt, fault);
    }
    match reader.finish() {
        Ok(_) => None,
        Err(fault) => place_of(rt, fault),
    }
}

/// The octets of a row, and where its text is bad.
fn text_of(alloc: Global, row: &[u8]) -> Result<(Vec<u8>, Option<u64>), Fail> {
    let mut text = Vec::new(alloc);
    let mut bad = None;
    for octet in row {
        match *octet {
            b'|' => bad = Some(text.len() as u64),
            b';' => text.push(b'\n')?,
            other => text.push(other)?,
        }
    }
    Ok((text, bad))
}

fn row_is_read(rt: &impl Abort, alloc: Global, row: &str) -> Result<(), Fail> {
    let (text, bad) = text_of(alloc, row.as_bytes())?;
    assert_eq!(rt; place_in_one(rt, alloc, text.as_slice()), bad, "{row}");
    assert_eq!(rt;
        place_in_pieces(rt, alloc, text.as_slice()),
        bad,
        "octet by octet: {row}"
    );
    Ok(())
}

#[test]
fn texts_are_read(rt: HostRuntime) -> Result<(), Fail> {
    for row in ROWS.lines() {
        row_is_read(&rt, rt.alloc(), row)?;
    }
    Ok(())
}

/// Where a text is bad whose third line has so many digits.
fn place_of_digits(rt: &impl Abort, alloc: Global, digits: usize) -> Result<Option<u64>, Fail> {
    let mut text = b"efiscript 1\ncreate tcp4\npost 1 send ".to_vec(alloc)?;
    for _digit in 0..digits {
        text.push(b'0')?;
    }
    text.extend_from_slice(b"\nend\n")?;
    Ok(place_in_one(rt, alloc, text.as_slice()))
}

#[test]
fn longest_line(rt: HostRuntime) -> Result<(), Fail> {
    let lengths = [(65_522, None), (65_524, None), (65_526, Some(24))];
    for (digits, bad) in lengths {
        assert_eq!(rt; place_of_digits(&rt, rt.alloc(), digits)?, bad, "{digits}");
    }
    Ok(())
}
