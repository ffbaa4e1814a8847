//! Expected pairs come from a Python dict, read by sorted keys, and versions from counting the changes.
use hilti_map::Keyed;

#[test]
fn keeps_keys_in_order(rt: HostRuntime) {
    let mut map = Keyed::new(rt.alloc());
    assert_eq!(rt; map.insert(30u64, b'c', 100), Ok(None));
    assert_eq!(rt; map.insert(10, b'a', 200), Ok(None));
    assert_eq!(rt; map.insert(30, b'd', 300), Ok(Some(b'c')));
    assert_eq!(rt; map.len(), 2);
    assert_eq!(rt; map.at(0), Some((&10, &b'a')));
    assert_eq!(rt; map.at(1), Some((&30, &b'd')));
    assert_eq!(rt; map.get(&10), Some(&b'a'));
    assert_eq!(rt; map.get(&20), None);
    assert_eq!(rt; map.stamp(&30), Some(300));
    assert!(rt; map.set_stamp(&30, 9));
    assert!(rt; !map.set_stamp(&20, 9));
    assert_eq!(rt; map.remove(&30), Some((30, b'd', 9)));
    assert_eq!(rt; map.version(), 4);
    map.clear();
    assert_eq!(rt; map.len(), 0);
    assert_eq!(rt; map.version(), 5);
}
