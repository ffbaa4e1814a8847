//! Expected numbers come from Python's integers.
use hilti_base::Raise;
use hilti_clock::{add, mul, read_decimal, split_decimal, sub};

#[test]
fn sums(rt: HostRuntime) {
    assert_eq!(rt; add(18446744073709551614, 1), Ok(18446744073709551615));
    assert_eq!(rt; add(18446744073709551615, 1), Err(Raise::ValueError));
    assert_eq!(rt; sub(7, 7), Ok(0));
    assert_eq!(rt; sub(6, 7), Err(Raise::ValueError));
    assert_eq!(rt; mul(4294967296, 4294967295), Ok(18446744069414584320));
    assert_eq!(rt; mul(4294967296, 4294967296), Err(Raise::ValueError));
}

#[test]
fn reads_seconds(rt: HostRuntime) {
    let rows = [
        ("0", Some(0)),
        ("1", Some(1000000000)),
        ("1.5", Some(1500000000)),
        ("0.000000001", Some(1)),
        ("18446744073", Some(18446744073000000000)),
        ("18446744073.709551615", Some(18446744073709551615)),
        ("", None),
        ("01", None),
        ("+1", None),
        (".5", None),
        ("1.", None),
        ("1.5.5", None),
        ("1.0000000001", None),
        ("0x10", None),
        ("18446744074", None),
        ("18446744073.709551616", None),
    ];
    for (text, nanos) in rows {
        assert_eq!(rt; read_decimal(text.as_bytes()), nanos, "{text}");
    }
    assert_eq!(rt;
        split_decimal(b"18446744073709551615.25"),
        Some((18446744073709551615, 250000000))
    );
}
