//! Mnemonics that mean an instruction or none, and some rows as the language's table has them.
use hilti_base::Raise;
use hilti_table::{
    Body, Family, Flow, Gives, Kind, Part, Raises, Takes, Test, exact, op_of, row_of,
};
use hilti_types::Op;

#[test]
fn mnemonics_are_found(rt: HostRuntime) {
    assert!(rt; op_of(b"nop") == Some(Op::Nop));
    assert!(rt; op_of(b"timer_mgr.advance") == Some(Op::TimerMgrAdvance));
    assert!(rt; op_of(b"int.add") == Some(Op::IntAdd));
    assert!(rt; exact(Op::IntAdd) == Op::IntAddExact);
    assert!(rt; exact(Op::IntDiv) == Op::IntDiv);
    assert!(rt; op_of(b"int.ad").is_none());
    assert!(rt; op_of(b"Int.add").is_none());
    assert!(rt; op_of(b"").is_none());
}

#[test]
fn rows_are_read(rt: HostRuntime) {
    let map = Kind::Own(Test::Object(Family::Map));
    let get = row_of(Op::MapGet);
    assert!(rt; get.takes == Takes::Two(map, Kind::Part(Part::First)));
    assert!(rt; get.gives == Gives::Part(Part::Second));
    assert!(rt;
        get.raises == Raises::Three(Raise::NullReference, Raise::IndexError, Raise::ValueError)
    );
    assert!(rt; row_of(Op::Print).takes == Takes::UpToEight(Kind::Own(Test::Sendable)));
    assert!(rt; row_of(Op::ListPopFront).gives == Gives::Popped);
    assert!(rt; row_of(Op::HookStop).flow == Flow::Leaves(Body::Hook));
    assert!(rt; row_of(Op::HookStop).flow.ends());
    assert!(rt; !row_of(Op::HookRun).flow.ends());
}
