//! Of the due times 5, 3 and 3, scheduled under the serials 10, 12 and 11, the least is 3, first under serial 11.
use hilti_base::Serial;
use hilti_timers::Manager;
use std::test::Fail;

#[test]
#[tactic(auto, using(crate::proofs::Gets::map_gets))]
fn least_due_time_then_least_serial(rt: HostRuntime) -> Result<(), Fail> {
    let mut manager: Manager<u8> = Manager::new(rt.alloc());
    let Ok(()) = manager.schedule(5, Serial { n: 10 }, b'a') else {
        return Err("no memory".into());
    };
    let Ok(()) = manager.schedule(3, Serial { n: 12 }, b'b') else {
        return Err("no memory".into());
    };
    let Ok(()) = manager.schedule(3, Serial { n: 11 }, b'c') else {
        return Err("no memory".into());
    };
    assert_eq!(rt; manager.len(), 3);
    assert_eq!(rt; manager.next_due(2), None);
    assert_eq!(rt; manager.next_due(3), Some((3, Serial { n: 11 })));
    assert_eq!(rt;
        manager.renew(Serial { n: 11 }, 9, Serial { n: 14 }),
        Ok(true)
    );
    assert_eq!(rt; manager.next_due(100), Some((3, Serial { n: 12 })));
    assert_eq!(rt; manager.cancel(Serial { n: 11 }), None);
    assert_eq!(rt; manager.cancel(Serial { n: 14 }), Some(b'c'));
    assert_eq!(rt; manager.len(), 2);
    Ok(())
}
