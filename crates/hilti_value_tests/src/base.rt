//! Expected numbers come from Python's integers.
use hilti_base::{
    Blob, Limits, NoMemory, Numbers, Refusal, read_digits, read_number, split_at_byte,
};
use std::test::Fail;

#[test]
fn collects(rt: HostRuntime) -> Result<(), Fail> {
    let alloc = rt.alloc();
    let mut numbers = Numbers::new(alloc);
    assert!(rt; numbers.is_empty());
    numbers.push(7)?;
    numbers.push(9)?;
    assert_eq!(rt; numbers.len(), 2);
    assert_eq!(rt; numbers.get(1), Some(&9));
    assert_eq!(rt; numbers.as_slice(), [7, 9].as_slice());
    assert_eq!(rt; numbers.into_vec().len(), 2);
    let mut blob = Blob::of(alloc, b"ab")?;
    blob.append(b"cd")?;
    assert_eq!(rt; blob.bytes(), b"abcd".as_slice());
    assert_eq!(rt; blob.copy()?.bytes(), b"abcd".as_slice());
    Ok(())
}

#[test]
fn limits_a_run(rt: HostRuntime) -> Result<(), Fail> {
    let limits = Limits::new(1_000_000_000, 1, 64).ok_or("no limits")?;
    assert_eq!(rt; limits.fuel, 1_000_000_000);
    assert_eq!(rt; limits.calls, 1);
    assert_eq!(rt; limits.workers, 64);
    Ok(())
}

#[test]
fn tells_of_no_memory(rt: HostRuntime) -> Result<(), Fail> {
    let alloc = rt.alloc();
    assert_eq!(rt; format!(in alloc; "{NoMemory}")?.as_str(), "out of memory");
    assert_eq!(rt; Refusal::from(NoMemory), Refusal::NoMemory);
    Ok(())
}

#[test]
fn reads_numerals(rt: HostRuntime) {
    assert_eq!(rt; read_digits(b"0042", 10), Some(42));
    assert_eq!(rt; read_digits(b"dEadBeef", 16), Some(3735928559));
    assert_eq!(rt;
        read_digits(b"18446744073709551615", 10),
        Some(18446744073709551615)
    );
    assert_eq!(rt; read_number(b"65535", 65535), Some(65535));
    assert_eq!(rt;
        split_at_byte(b"a/b/c", b'/'),
        Some((b"a".as_slice(), b"b/c".as_slice()))
    );
}
