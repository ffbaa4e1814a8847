//! Expected masks and nets come from Python's ipaddress.
use hilti_addr::{
    Net, Port, contains, is_mapped, make_net, mask, read_addr, read_net, read_port, v4,
};

#[test]
fn masks(rt: HostRuntime) {
    let address = v4(0x0a0b_0c0d);
    assert_eq!(rt; address, 281470850239501);
    let masked = [
        (128, 281470850239501),
        (112, 281470850236416),
        (96, 281470681743360),
        (0, 0),
    ];
    for (len, expected) in masked {
        assert_eq!(rt; mask(address, len), expected, "{len}");
    }
    let net = Net {
        addr: 281470849515520,
        len: 108,
    };
    assert_eq!(rt; make_net(address, 12), Some(net));
    assert_eq!(rt; make_net(address, 33), None);
    assert!(rt; contains(net, address));
    assert!(rt; !contains(net, v4(0x0a10_0000)));
}

#[test]
fn masks_wide_addresses(rt: HostRuntime) {
    let address = 0x2001_0db8_ffff_0000_0000_0000_0000_0001;
    let net = Net {
        addr: 0x2001_0db8_8000_0000_0000_0000_0000_0000,
        len: 33,
    };
    assert_eq!(rt; make_net(address, 33), Some(net));
    let whole = Net {
        addr: address,
        len: 128,
    };
    assert_eq!(rt; make_net(address, 128), Some(whole));
    assert_eq!(rt; make_net(address, 129), None);
    assert!(rt; is_mapped(v4(0x0a0b_0c0d)) && !is_mapped(address));
}

#[test]
fn reads_addresses(rt: HostRuntime) {
    let rows = [
        ("10.11.12.13", Some(281470850239501)),
        ("255.255.255.255", Some(281474976710655)),
        ("0.0.0.0", Some(281470681743360)),
        ("", None),
        ("1.2.3", None),
        ("1.2.3.4.5", None),
        ("1.2.3.256", None),
        ("01.2.3.4", None),
        ("1.2.3.", None),
        (".2.3.4", None),
        ("1.2.3.4 ", None),
        ("a.2.3.4", None),
    ];
    for (text, address) in rows {
        assert_eq!(rt; read_addr(text.as_bytes()), address, "{text}");
    }
}

#[test]
fn reads_brackets(rt: HostRuntime) {
    let rows: [(&str, u128); 8] = [
        (
            "[2001:DB8:0:0:1:0:0:1]",
            0x2001_0db8_0000_0000_0001_0000_0000_0001,
        ),
        ("[::]", 0),
        ("[1:0:2:3:4:5:6:7]", 0x1_0000_0002_0003_0004_0005_0006_0007),
        ("[::ffff:a00:1]", 281470849515521),
        ("[1::]", 0x1_0000_0000_0000_0000_0000_0000_0000),
        ("[::0008]", 8),
        (
            "[ffff:FFFF:ffff:ffff:ffff:ffff:ffff:ffff]",
            0xffff_ffff_ffff_ffff_ffff_ffff_ffff_ffff,
        ),
        ("[1:2:3:4:5:6:7::]", 0x1_0002_0003_0004_0005_0006_0007_0000),
    ];
    for (text, address) in rows {
        assert_eq!(rt; read_addr(text.as_bytes()), Some(address), "{text}");
    }
    for text in [
        "[]",
        "[:]",
        "[1::2::3]",
        "[:::]",
        "[1:2:3:4:5:6:7]",
        "[1:2:3:4:5:6:7:8:9]",
        "[1:2:3:4:5:6:7:8::]",
        "[1:2:3:4::5:6:7:8]",
        "[1:::2]",
        "[:1::]",
        "[1::2:]",
        "[00001::]",
        "[g::]",
        "[+1::]",
        "[::1.2.3.4]",
        "[ ::]",
        "::",
        "[::",
        "::]",
        "[::]]",
        "[::]/1",
    ] {
        assert_eq!(rt; read_addr(text.as_bytes()), None, "{text}");
    }
}

fn net_of(addr: u128, len: u8) -> Option<Net> {
    Some(Net { addr, len })
}

#[test]
fn reads_nets(rt: HostRuntime) {
    let rows = [
        ("10.11.12.13/12", net_of(281470849515520, 108)),
        ("10.11.12.13", None),
        ("10.11.12.13/33", None),
        ("10.11.12.13/012", None),
        ("10.11.12/12", None),
        ("/12", None),
    ];
    for (text, expected) in rows {
        assert_eq!(rt; read_net(text.as_bytes()), expected, "{text}");
    }
}

#[test]
fn reads_nets_between_brackets(rt: HostRuntime) {
    let rows = [
        (
            "[2001:db8:ffff::]/32",
            net_of(0x2001_0db8_0000_0000_0000_0000_0000_0000, 32),
        ),
        ("[1::]/0", net_of(0, 0)),
        ("[::ffff:a00:1]/104", net_of(281470849515520, 104)),
        (
            "[1:2:3:4:5:6:7:8]/128",
            net_of(0x1_0002_0003_0004_0005_0006_0007_0008, 128),
        ),
        ("[2001:db8::]/129", None),
        ("[::]", None),
        ("[::]/", None),
        ("[::]/01", None),
        ("[::]/1x", None),
        ("[::/1]", None),
        ("[::]1", None),
    ];
    for (text, expected) in rows {
        assert_eq!(rt; read_net(text.as_bytes()), expected, "{text}");
    }
}

fn port_of(number: u16, udp: bool) -> Option<Port> {
    Some(Port { number, udp })
}

#[test]
fn reads_ports(rt: HostRuntime) {
    let rows = [
        ("80/tcp", port_of(80, false)),
        ("65535/udp", port_of(65535, true)),
        ("80", None),
        ("65536/tcp", None),
        ("80/TCP", None),
        ("080/tcp", None),
        ("80/", None),
        ("/tcp", None),
        ("80/tcp/udp", None),
    ];
    for (text, expected) in rows {
        assert_eq!(rt; read_port(text.as_bytes()), expected, "{text}");
    }
}
