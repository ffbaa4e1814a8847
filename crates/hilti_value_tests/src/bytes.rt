//! Expected places come from Python's bytes.find, and numbers from its int and int.from_bytes.
use hilti_base::Raise;
use hilti_bytes::{BytesFault, byte, find, join, starts, sub, to_int, to_uint};
use std::test::Fail;

#[test]
fn finds(rt: HostRuntime) -> Result<(), Fail> {
    let found = [
        ("abcabd", "abd", Some(3)),
        ("aaaab", "aab", Some(2)),
        ("abc", "", Some(0)),
        ("", "", Some(0)),
        ("abc", "c", Some(2)),
        ("aaaa", "b", None),
        ("ab", "abc", None),
    ];
    for (text, needle, at) in found {
        let place = find(text.as_bytes(), needle.as_bytes());
        assert_eq!(rt; place, at, "{needle}");
    }
    assert!(rt; starts(b"abc", b"ab"));
    assert!(rt; !starts(b"abc", b"b"));
    Ok(())
}

#[test]
fn takes_pieces(rt: HostRuntime) -> Result<(), Fail> {
    let alloc = rt.alloc();
    assert_eq!(rt; sub(b"abcd", 1, 2)?, b"bc".as_slice());
    assert_eq!(rt; sub(b"abcd", 4, 0)?, b"".as_slice());
    assert_eq!(rt; sub(b"abcd", 3, 2).err(), Some(Raise::ValueError));
    assert_eq!(rt;
        sub(b"abcd", 18446744073709551615, 2).err(),
        Some(Raise::ValueError)
    );
    assert_eq!(rt; byte(b"abcd", 3), Ok(b'd'));
    assert_eq!(rt; byte(b"abcd", 4), Err(Raise::IndexError));
    assert_eq!(rt; join(alloc, b"ab", b"cd")?.bytes(), b"abcd".as_slice());
    let half = vec![in alloc; 0u8; 8_388_608]?;
    assert_eq!(rt; join(alloc, &half, &half)?.len(), 16_777_216);
    let longer = vec![in alloc; 0u8; 8_388_609]?;
    let refused = join(alloc, &half, &longer).err();
    assert_eq!(rt; refused, Some(BytesFault::Raise(Raise::ValueError)));
    Ok(())
}

#[test]
fn reads_numbers(rt: HostRuntime) {
    let rows = [
        ("0042", 10, Ok(42)),
        ("dEadBeef", 16, Ok(3735928559)),
        ("18446744073709551615", 10, Ok(18446744073709551615)),
        ("18446744073709551616", 10, Err(Raise::ValueError)),
        ("", 10, Err(Raise::ValueError)),
        ("+1", 10, Err(Raise::ValueError)),
        ("a", 10, Err(Raise::ValueError)),
        ("7", 8, Err(Raise::ValueError)),
    ];
    for (text, base, number) in rows {
        assert_eq!(rt; to_int(text.as_bytes(), base), number, "{text}");
    }
    assert_eq!(rt; to_uint(&[1, 2, 3], true), Ok(66051));
    assert_eq!(rt; to_uint(&[1, 2, 3], false), Ok(197121));
    assert_eq!(rt; to_uint(&[255; 8], false), Ok(18446744073709551615));
    assert_eq!(rt; to_uint(&[], true), Err(Raise::ValueError));
    assert_eq!(rt; to_uint(&[0; 9], true), Err(Raise::ValueError));
}
