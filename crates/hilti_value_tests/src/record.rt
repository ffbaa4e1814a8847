//! Fields that are set and unset by hand.
use hilti_record::Record;
use std::test::Fail;

#[test]
fn sets_and_unsets(rt: HostRuntime) -> Result<(), Fail> {
    let mut record = Record::new(rt.alloc(), 2)?;
    assert_eq!(rt; record.get(1), None);
    record.set(1, 7u64);
    assert_eq!(rt; record.get(1), Some(&7));
    assert_eq!(rt; record.replace(1, Some(9)), Some(7));
    record.unset(1);
    assert_eq!(rt; record.get(1), None);
    assert_eq!(rt; record.len(), 2);
    Ok(())
}
