//! Values as texts, at the ends of their ranges.
use crate::{front, ip, is_hex_text, is_name, mac, number, rest};
use efi_base::{Ip4, Mac};
use std::test::Fail;

#[test]
fn values_by_the_table(rt: HostRuntime) -> Result<(), Fail> {
    let numbers = [
        ("0", 0, Some(0)),
        ("65536", 65_536, Some(65_536)),
        ("65537", 65_536, None),
        ("18446744073709551615", u64::MAX, Some(u64::MAX)),
        ("18446744073709551616", u64::MAX, None),
        ("01", 9, None),
        ("", 9, None),
        ("+1", 9, None),
        ("1\r", 9, None),
    ];
    for (text, most, wanted) in numbers {
        assert_eq!(rt; number(text.as_bytes(), most), wanted);
    }
    let addresses = [
        ("192.168.7.1", Some(Ip4(0xC0A8_0701))),
        ("255.255.255.255", Some(Ip4(u32::MAX))),
        ("1.2.3.256", None),
        ("1.2.3", None),
        ("1.2.3.4.5", None),
        ("1.02.3.4", None),
    ];
    for (text, wanted) in addresses {
        assert_eq!(rt; ip(text.as_bytes()), wanted);
    }
    let names = [
        ("a-b.C9", true),
        ("a..b", false),
        ("a_b", false),
        ("", false),
    ];
    for (text, wanted) in names {
        assert_eq!(rt; is_name(text.as_bytes()), wanted);
    }
    let digits = [("", true), ("00ff", true), ("0", false), ("0F", false)];
    for (text, wanted) in digits {
        assert_eq!(rt; is_hex_text(text.as_bytes()), wanted);
    }
    assert_eq!(rt; mac(b"02:00:00:00:0f:fe"), Some(Mac([2, 0, 0, 0, 15, 254])));
    assert_eq!(rt; mac(b"02:00:00:00:0F:fe"), None);
    assert_eq!(rt; front(b"drop down 1", b' '), b"drop".as_slice());
    assert!(rt; rest(b"end", b' ').is_none());
    Ok(())
}
