//! Expected items come from Python's deque, and versions from counting the changes.
use hilti_seq::Seq;

#[test]
fn grows_changes_and_shrinks(rt: HostRuntime) {
    let mut seq = Seq::new(rt.alloc());
    assert!(rt; seq.push_back(5u64).is_ok());
    assert!(rt; seq.push_back(6).is_ok());
    assert!(rt; seq.push_front(4).is_ok());
    assert_eq!(rt; seq.len(), 3);
    assert_eq!(rt; seq.get(0), Some(&4));
    assert_eq!(rt; seq.get(3), None);
    assert_eq!(rt; seq.set(1, 7), Ok(5));
    assert_eq!(rt; seq.set(3, 9), Err(9));
    assert_eq!(rt; seq.pop_back(), Some(6));
    assert_eq!(rt; seq.pop_front(), Some(4));
    seq.truncate(0);
    assert_eq!(rt; seq.pop_front(), None);
    assert_eq!(rt; seq.version(), 7);
}
