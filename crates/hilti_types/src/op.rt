/// An instruction: one variant for each mnemonic, and one more for each that is exact in modules of version 2.
#[derive(Clone, Copy, Debug, PartialEq, Eq)]
pub enum Op {
    /// `nop`
    Nop,
    /// `assign`
    Assign,
    /// `select`
    Select,
    /// `equal`
    Equal,
    /// `less`
    Less,
    /// `hash`
    Hash,
    /// `print`
    Print,
    /// `yield`
    Yield,
    /// `call`
    Call,
    /// `callable.bind`
    CallableBind,
    /// `callable.call`
    CallableCall,
    /// `hook.run`
    HookRun,
    /// `hook.stop`
    HookStop,
    /// `thread.schedule`
    ThreadSchedule,
    /// `thread.id`
    ThreadId,
    /// `jump`
    Jump,
    /// `if.else`
    IfElse,
    /// `return.void`
    ReturnVoid,
    /// `return.result`
    ReturnResult,
    /// `exception.throw`
    ExceptionThrow,
    /// `new`
    New,
    /// `ref.is_null`
    RefIsNull,
    /// `bool.and`
    BoolAnd,
    /// `bool.or`
    BoolOr,
    /// `bool.not`
    BoolNot,
    /// `int.add`
    IntAdd,
    /// `int.sub`
    IntSub,
    /// `int.mul`
    IntMul,
    /// `int.div`
    IntDiv,
    /// `int.mod`
    IntMod,
    /// `int.sdiv`
    IntSdiv,
    /// `int.smod`
    IntSmod,
    /// `int.and`
    IntAnd,
    /// `int.or`
    IntOr,
    /// `int.xor`
    IntXor,
    /// `int.shl`
    IntShl,
    /// `int.shr`
    IntShr,
    /// `int.sshr`
    IntSshr,
    /// `int.lt`
    IntLt,
    /// `int.gt`
    IntGt,
    /// `int.leq`
    IntLeq,
    /// `int.geq`
    IntGeq,
    /// `int.slt`
    IntSlt,
    /// `int.sgt`
    IntSgt,
    /// `int.as`
    IntAs,
    /// `int.add` in a module of version 2, which raises ValueError where the result doesn't fit
    IntAddExact,
    /// `int.sub` in a module of version 2, which raises ValueError where the result doesn't fit
    IntSubExact,
    /// `int.mul` in a module of version 2, which raises ValueError where the result doesn't fit
    IntMulExact,
    /// `int.shl` in a module of version 2, which raises ValueError where the result doesn't fit
    IntShlExact,
    /// `int.sdiv` in a module of version 2, which raises ValueError where the result doesn't fit
    IntSdivExact,
    /// `int.as` in a module of version 2, which raises ValueError where the result doesn't fit
    IntAsExact,
    /// `bytes.length`
    BytesLength,
    /// `bytes.sub`
    BytesSub,
    /// `bytes.join`
    BytesJoin,
    /// `bytes.find`
    BytesFind,
    /// `bytes.starts`
    BytesStarts,
    /// `bytes.byte`
    BytesByte,
    /// `bytes.to_int`
    BytesToInt,
    /// `bytes.to_uint_big`
    BytesToUintBig,
    /// `bytes.to_uint_little`
    BytesToUintLittle,
    /// `addr.mask`
    AddrMask,
    /// `net.make`
    NetMake,
    /// `net.addr`
    NetAddr,
    /// `net.length`
    NetLength,
    /// `net.contains`
    NetContains,
    /// `port.tcp`
    PortTcp,
    /// `port.udp`
    PortUdp,
    /// `port.number`
    PortNumber,
    /// `port.is_tcp`
    PortIsTcp,
    /// `time.add`
    TimeAdd,
    /// `time.sub`
    TimeSub,
    /// `time.diff`
    TimeDiff,
    /// `interval.add`
    IntervalAdd,
    /// `interval.sub`
    IntervalSub,
    /// `interval.mul`
    IntervalMul,
    /// `interval.make`
    IntervalMake,
    /// `time.make`
    TimeMake,
    /// `interval.nanos`
    IntervalNanos,
    /// `time.nanos`
    TimeNanos,
    /// `tuple.make`
    TupleMake,
    /// `tuple.get`
    TupleGet,
    /// `struct.get`
    StructGet,
    /// `struct.set`
    StructSet,
    /// `struct.unset`
    StructUnset,
    /// `struct.is_set`
    StructIsSet,
    /// `list.append`
    ListAppend,
    /// `list.push_front`
    ListPushFront,
    /// `list.pop_front`
    ListPopFront,
    /// `list.pop_back`
    ListPopBack,
    /// `list.front`
    ListFront,
    /// `list.back`
    ListBack,
    /// `list.length`
    ListLength,
    /// `vector.length`
    VectorLength,
    /// `set.size`
    SetSize,
    /// `map.size`
    MapSize,
    /// `list.clear`
    ListClear,
    /// `set.clear`
    SetClear,
    /// `map.clear`
    MapClear,
    /// `vector.push`
    VectorPush,
    /// `vector.truncate`
    VectorTruncate,
    /// `vector.get`
    VectorGet,
    /// `vector.set`
    VectorSet,
    /// `set.insert`
    SetInsert,
    /// `set.exists`
    SetExists,
    /// `map.exists`
    MapExists,
    /// `set.remove`
    SetRemove,
    /// `map.remove`
    MapRemove,
    /// `map.insert`
    MapInsert,
    /// `map.get`
    MapGet,
    /// `map.get_default`
    MapGetDefault,
    /// `set.timeout`
    SetTimeout,
    /// `map.timeout`
    MapTimeout,
    /// `iter.begin`
    IterBegin,
    /// `iter.at_end`
    IterAtEnd,
    /// `iter.value`
    IterValue,
    /// `iter.next`
    IterNext,
    /// `classifier.add`
    ClassifierAdd,
    /// `classifier.compile`
    ClassifierCompile,
    /// `classifier.get`
    ClassifierGet,
    /// `classifier.matches`
    ClassifierMatches,
    /// `overlay.get`
    OverlayGet,
    /// `timer.make`
    TimerMake,
    /// `timer.cancel`
    TimerCancel,
    /// `timer_mgr.schedule`
    TimerMgrSchedule,
    /// `timer_mgr.current`
    TimerMgrCurrent,
    /// `timer_mgr.advance`
    TimerMgrAdvance,
}
