//! The rows.
ghost use Rattle.std.specs.Prelude.{◌≡◌};
ghost use Rattle.hilti_table.specs.Table.{line_of};

use crate::row::{Body, Callee, Family, Flow, Gives, Kind, Part, Plain, Raises, Row, Takes, Test};
use hilti_base::Raise;
use hilti_types::Op;

/// The row of an instruction.
pub fn row_of(op: Op) -> Row
    ensures { result ≡ (line_of op).row }
{
    match op {
        Op::Nop | Op::Yield => Row {
            takes: Takes::Nothing,
            gives: Gives::Nothing,
            raises: Raises::Nothing,
            flow: Flow::Next,
        },
        Op::Assign => Row {
            takes: Takes::One(Kind::Own(Test::Any)),
            gives: Gives::Same,
            raises: Raises::Nothing,
            flow: Flow::Next,
        },
        Op::Select => Row {
            takes: Takes::Three(Kind::Fixed(Plain::Bool), Kind::Own(Test::Any), Kind::Same),
            gives: Gives::Same,
            raises: Raises::Nothing,
            flow: Flow::Next,
        },
        Op::Equal | Op::Less => Row {
            takes: Takes::Two(Kind::Own(Test::Key), Kind::Same),
            gives: Gives::Fixed(Plain::Bool),
            raises: Raises::Nothing,
            flow: Flow::Next,
        },
        Op::Hash => Row {
            takes: Takes::One(Kind::Own(Test::Key)),
            gives: Gives::Fixed(Plain::Int64),
            raises: Raises::Nothing,
            flow: Flow::Next,
        },
        Op::Print => Row {
            takes: Takes::UpToEight(Kind::Own(Test::Sendable)),
            gives: Gives::Nothing,
            raises: Raises::One(Raise::ValueError),
            flow: Flow::Next,
        },
        Op::Call => Row {
            takes: Takes::Two(Kind::Function(Callee::Any), Kind::Arguments),
            gives: Gives::Called,
            raises: Raises::Nothing,
            flow: Flow::Calls,
        },
        Op::CallableBind => Row {
            takes: Takes::Two(Kind::Function(Callee::Void), Kind::Arguments),
            gives: Gives::Fixed(Plain::Callable),
            raises: Raises::Nothing,
            flow: Flow::Next,
        },
        Op::CallableCall => Row {
            takes: Takes::One(Kind::Fixed(Plain::Callable)),
            gives: Gives::Nothing,
            raises: Raises::One(Raise::NullReference),
            flow: Flow::Calls,
        },
        Op::HookRun => Row {
            takes: Takes::Two(Kind::Hook, Kind::Arguments),
            gives: Gives::Nothing,
            raises: Raises::Nothing,
            flow: Flow::Calls,
        },
        Op::HookStop => Row {
            takes: Takes::Nothing,
            gives: Gives::Nothing,
            raises: Raises::Nothing,
            flow: Flow::Leaves(Body::Hook),
        },
        Op::ThreadSchedule => Row {
            takes: Takes::Three(
                Kind::Fixed(Plain::Int64),
                Kind::Function(Callee::Void),
                Kind::Sent,
            ),
            gives: Gives::Nothing,
            raises: Raises::One(Raise::ValueError),
            flow: Flow::Next,
        },
        Op::ThreadId => Row {
            takes: Takes::Nothing,
            gives: Gives::Fixed(Plain::Int64),
            raises: Raises::Nothing,
            flow: Flow::Next,
        },
        Op::Jump => Row {
            takes: Takes::One(Kind::Label),
            gives: Gives::Nothing,
            raises: Raises::Nothing,
            flow: Flow::Jumps,
        },
        Op::IfElse => Row {
            takes: Takes::Three(Kind::Fixed(Plain::Bool), Kind::Label, Kind::Label),
            gives: Gives::Nothing,
            raises: Raises::Nothing,
            flow: Flow::Jumps,
        },
        Op::ReturnVoid => Row {
            takes: Takes::Nothing,
            gives: Gives::Nothing,
            raises: Raises::Nothing,
            flow: Flow::Leaves(Body::Void),
        },
        Op::ReturnResult => Row {
            takes: Takes::One(Kind::Returned),
            gives: Gives::Nothing,
            raises: Raises::Nothing,
            flow: Flow::Leaves(Body::Result),
        },
        Op::ExceptionThrow => Row {
            takes: Takes::Two(Kind::Exception, Kind::Fixed(Plain::Text)),
            gives: Gives::Nothing,
            raises: Raises::Nothing,
            flow: Flow::Throws,
        },
        Op::New => Row {
            takes: Takes::One(Kind::New),
            gives: Gives::Same,
            raises: Raises::Nothing,
            flow: Flow::Next,
        },
        Op::RefIsNull => Row {
            takes: Takes::One(Kind::Own(Test::Nullable)),
            gives: Gives::Fixed(Plain::Bool),
            raises: Raises::Nothing,
            flow: Flow::Next,
        },
        Op::BoolAnd | Op::BoolOr => Row {
            takes: Takes::Two(Kind::Fixed(Plain::Bool), Kind::Fixed(Plain::Bool)),
            gives: Gives::Fixed(Plain::Bool),
            raises: Raises::Nothing,
            flow: Flow::Next,
        },
        Op::BoolNot => Row {
            takes: Takes::One(Kind::Fixed(Plain::Bool)),
            gives: Gives::Fixed(Plain::Bool),
            raises: Raises::Nothing,
            flow: Flow::Next,
        },
        Op::IntAdd
        | Op::IntSub
        | Op::IntMul
        | Op::IntAnd
        | Op::IntOr
        | Op::IntXor
        | Op::IntShl
        | Op::IntShr
        | Op::IntSshr => Row {
            takes: Takes::Two(Kind::Sized, Kind::Sized),
            gives: Gives::Sized,
            raises: Raises::Nothing,
            flow: Flow::Next,
        },
        Op::IntDiv | Op::IntMod | Op::IntSdiv | Op::IntSmod => Row {
            takes: Takes::Two(Kind::Sized, Kind::Sized),
            gives: Gives::Sized,
            raises: Raises::One(Raise::DivisionByZero),
            flow: Flow::Next,
        },
        Op::IntLt | Op::IntGt | Op::IntLeq | Op::IntGeq | Op::IntSlt | Op::IntSgt => Row {
            takes: Takes::Two(Kind::Sized, Kind::Sized),
            gives: Gives::Fixed(Plain::Bool),
            raises: Raises::Nothing,
            flow: Flow::Next,
        },
        Op::IntAs => Row {
            takes: Takes::One(Kind::Own(Test::Int)),
            gives: Gives::AnyInt,
            raises: Raises::Nothing,
            flow: Flow::Next,
        },
        Op::IntAddExact | Op::IntSubExact | Op::IntMulExact | Op::IntShlExact => Row {
            takes: Takes::Two(Kind::Sized, Kind::Sized),
            gives: Gives::Sized,
            raises: Raises::One(Raise::ValueError),
            flow: Flow::Next,
        },
        Op::IntSdivExact => Row {
            takes: Takes::Two(Kind::Sized, Kind::Sized),
            gives: Gives::Sized,
            raises: Raises::Two(Raise::DivisionByZero, Raise::ValueError),
            flow: Flow::Next,
        },
        Op::IntAsExact => Row {
            takes: Takes::One(Kind::Own(Test::Int)),
            gives: Gives::AnyInt,
            raises: Raises::One(Raise::ValueError),
            flow: Flow::Next,
        },
        Op::BytesLength => Row {
            takes: Takes::One(Kind::Fixed(Plain::Bytes)),
            gives: Gives::Fixed(Plain::Int64),
            raises: Raises::Nothing,
            flow: Flow::Next,
        },
        Op::BytesSub => Row {
            takes: Takes::Three(
                Kind::Fixed(Plain::Bytes),
                Kind::Fixed(Plain::Int64),
                Kind::Fixed(Plain::Int64),
            ),
            gives: Gives::Fixed(Plain::Bytes),
            raises: Raises::One(Raise::ValueError),
            flow: Flow::Next,
        },
        Op::BytesJoin => Row {
            takes: Takes::Two(Kind::Fixed(Plain::Bytes), Kind::Fixed(Plain::Bytes)),
            gives: Gives::Fixed(Plain::Bytes),
            raises: Raises::One(Raise::ValueError),
            flow: Flow::Next,
        },
        Op::BytesFind => Row {
            takes: Takes::Two(Kind::Fixed(Plain::Bytes), Kind::Fixed(Plain::Bytes)),
            gives: Gives::Fixed(Plain::Int64),
            raises: Raises::One(Raise::IndexError),
            flow: Flow::Next,
        },
        Op::BytesStarts => Row {
            takes: Takes::Two(Kind::Fixed(Plain::Bytes), Kind::Fixed(Plain::Bytes)),
            gives: Gives::Fixed(Plain::Bool),
            raises: Raises::Nothing,
            flow: Flow::Next,
        },
        Op::BytesByte => Row {
            takes: Takes::Two(Kind::Fixed(Plain::Bytes), Kind::Fixed(Plain::Int64)),
            gives: Gives::Fixed(Plain::Int8),
            raises: Raises::One(Raise::IndexError),
            flow: Flow::Next,
        },
        Op::BytesToInt => Row {
            takes: Takes::Two(Kind::Fixed(Plain::Bytes), Kind::Fixed(Plain::Int8)),
            gives: Gives::Fixed(Plain::Int64),
            raises: Raises::One(Raise::ValueError),
            flow: Flow::Next,
        },
        Op::BytesToUintBig | Op::BytesToUintLittle => Row {
            takes: Takes::One(Kind::Fixed(Plain::Bytes)),
            gives: Gives::Fixed(Plain::Int64),
            raises: Raises::One(Raise::ValueError),
            flow: Flow::Next,
        },
        Op::AddrMask => Row {
            takes: Takes::Two(Kind::Fixed(Plain::Addr), Kind::Fixed(Plain::Int8)),
            gives: Gives::Fixed(Plain::Addr),
            raises: Raises::One(Raise::ValueError),
            flow: Flow::Next,
        },
        Op::NetMake => Row {
            takes: Takes::Two(Kind::Fixed(Plain::Addr), Kind::Fixed(Plain::Int8)),
            gives: Gives::Fixed(Plain::Net),
            raises: Raises::One(Raise::ValueError),
            flow: Flow::Next,
        },
        Op::NetAddr => Row {
            takes: Takes::One(Kind::Fixed(Plain::Net)),
            gives: Gives::Fixed(Plain::Addr),
            raises: Raises::Nothing,
            flow: Flow::Next,
        },
        Op::NetLength => Row {
            takes: Takes::One(Kind::Fixed(Plain::Net)),
            gives: Gives::Fixed(Plain::Int8),
            raises: Raises::Nothing,
            flow: Flow::Next,
        },
        Op::NetContains => Row {
            takes: Takes::Two(Kind::Fixed(Plain::Net), Kind::Fixed(Plain::Addr)),
            gives: Gives::Fixed(Plain::Bool),
            raises: Raises::Nothing,
            flow: Flow::Next,
        },
        Op::PortTcp | Op::PortUdp => Row {
            takes: Takes::One(Kind::Fixed(Plain::Int16)),
            gives: Gives::Fixed(Plain::Port),
            raises: Raises::Nothing,
            flow: Flow::Next,
        },
        Op::PortNumber => Row {
            takes: Takes::One(Kind::Fixed(Plain::Port)),
            gives: Gives::Fixed(Plain::Int16),
            raises: Raises::Nothing,
            flow: Flow::Next,
        },
        Op::PortIsTcp => Row {
            takes: Takes::One(Kind::Fixed(Plain::Port)),
            gives: Gives::Fixed(Plain::Bool),
            raises: Raises::Nothing,
            flow: Flow::Next,
        },
        Op::TimeAdd | Op::TimeSub => Row {
            takes: Takes::Two(Kind::Fixed(Plain::Time), Kind::Fixed(Plain::Span)),
            gives: Gives::Fixed(Plain::Time),
            raises: Raises::One(Raise::ValueError),
            flow: Flow::Next,
        },
        Op::TimeDiff => Row {
            takes: Takes::Two(Kind::Fixed(Plain::Time), Kind::Fixed(Plain::Time)),
            gives: Gives::Fixed(Plain::Span),
            raises: Raises::One(Raise::ValueError),
            flow: Flow::Next,
        },
        Op::IntervalAdd | Op::IntervalSub => Row {
            takes: Takes::Two(Kind::Fixed(Plain::Span), Kind::Fixed(Plain::Span)),
            gives: Gives::Fixed(Plain::Span),
            raises: Raises::One(Raise::ValueError),
            flow: Flow::Next,
        },
        Op::IntervalMul => Row {
            takes: Takes::Two(Kind::Fixed(Plain::Span), Kind::Fixed(Plain::Int64)),
            gives: Gives::Fixed(Plain::Span),
            raises: Raises::One(Raise::ValueError),
            flow: Flow::Next,
        },
        Op::IntervalMake => Row {
            takes: Takes::One(Kind::Fixed(Plain::Int64)),
            gives: Gives::Fixed(Plain::Span),
            raises: Raises::Nothing,
            flow: Flow::Next,
        },
        Op::TimeMake => Row {
            takes: Takes::One(Kind::Fixed(Plain::Int64)),
            gives: Gives::Fixed(Plain::Time),
            raises: Raises::Nothing,
            flow: Flow::Next,
        },
        Op::IntervalNanos => Row {
            takes: Takes::One(Kind::Fixed(Plain::Span)),
            gives: Gives::Fixed(Plain::Int64),
            raises: Raises::Nothing,
            flow: Flow::Next,
        },
        Op::TimeNanos => Row {
            takes: Takes::One(Kind::Fixed(Plain::Time)),
            gives: Gives::Fixed(Plain::Int64),
            raises: Raises::Nothing,
            flow: Flow::Next,
        },
        Op::TupleMake => Row {
            takes: Takes::One(Kind::Parts),
            gives: Gives::Same,
            raises: Raises::Nothing,
            flow: Flow::Next,
        },
        Op::TupleGet => Row {
            takes: Takes::Two(Kind::Own(Test::Tuple), Kind::Index),
            gives: Gives::Same,
            raises: Raises::Nothing,
            flow: Flow::Next,
        },
        Op::StructGet => Row {
            takes: Takes::Two(Kind::Own(Test::Object(Family::Struct)), Kind::Field),
            gives: Gives::Same,
            raises: Raises::Two(Raise::NullReference, Raise::UnsetField),
            flow: Flow::Next,
        },
        Op::StructSet => Row {
            takes: Takes::Three(
                Kind::Own(Test::Object(Family::Struct)),
                Kind::Field,
                Kind::Same,
            ),
            gives: Gives::Nothing,
            raises: Raises::One(Raise::NullReference),
            flow: Flow::Next,
        },
        Op::StructUnset => Row {
            takes: Takes::Two(Kind::Own(Test::Object(Family::Struct)), Kind::Field),
            gives: Gives::Nothing,
            raises: Raises::One(Raise::NullReference),
            flow: Flow::Next,
        },
        Op::StructIsSet => Row {
            takes: Takes::Two(Kind::Own(Test::Object(Family::Struct)), Kind::Field),
            gives: Gives::Fixed(Plain::Bool),
            raises: Raises::One(Raise::NullReference),
            flow: Flow::Next,
        },
        Op::ListAppend | Op::ListPushFront => Row {
            takes: Takes::Two(
                Kind::Own(Test::Object(Family::List)),
                Kind::Part(Part::First),
            ),
            gives: Gives::Nothing,
            raises: Raises::One(Raise::NullReference),
            flow: Flow::Next,
        },
        Op::ListPopFront | Op::ListPopBack => Row {
            takes: Takes::One(Kind::Own(Test::Object(Family::List))),
            gives: Gives::Popped,
            raises: Raises::Two(Raise::NullReference, Raise::IndexError),
            flow: Flow::Next,
        },
        Op::ListFront | Op::ListBack => Row {
            takes: Takes::One(Kind::Own(Test::Object(Family::List))),
            gives: Gives::Part(Part::First),
            raises: Raises::Two(Raise::NullReference, Raise::IndexError),
            flow: Flow::Next,
        },
        Op::ListLength => Row {
            takes: Takes::One(Kind::Own(Test::Object(Family::List))),
            gives: Gives::Fixed(Plain::Int64),
            raises: Raises::One(Raise::NullReference),
            flow: Flow::Next,
        },
        Op::VectorLength => Row {
            takes: Takes::One(Kind::Own(Test::Object(Family::Vector))),
            gives: Gives::Fixed(Plain::Int64),
            raises: Raises::One(Raise::NullReference),
            flow: Flow::Next,
        },
        Op::SetSize => Row {
            takes: Takes::One(Kind::Own(Test::Object(Family::Set))),
            gives: Gives::Fixed(Plain::Int64),
            raises: Raises::One(Raise::NullReference),
            flow: Flow::Next,
        },
        Op::MapSize => Row {
            takes: Takes::One(Kind::Own(Test::Object(Family::Map))),
            gives: Gives::Fixed(Plain::Int64),
            raises: Raises::One(Raise::NullReference),
            flow: Flow::Next,
        },
        Op::ListClear => Row {
            takes: Takes::One(Kind::Own(Test::Object(Family::List))),
            gives: Gives::Nothing,
            raises: Raises::One(Raise::NullReference),
            flow: Flow::Next,
        },
        Op::SetClear => Row {
            takes: Takes::One(Kind::Own(Test::Object(Family::Set))),
            gives: Gives::Nothing,
            raises: Raises::One(Raise::NullReference),
            flow: Flow::Next,
        },
        Op::MapClear => Row {
            takes: Takes::One(Kind::Own(Test::Object(Family::Map))),
            gives: Gives::Nothing,
            raises: Raises::One(Raise::NullReference),
            flow: Flow::Next,
        },
        Op::VectorPush => Row {
            takes: Takes::Two(
                Kind::Own(Test::Object(Family::Vector)),
                Kind::Part(Part::First),
            ),
            gives: Gives::Nothing,
            raises: Raises::One(Raise::NullReference),
            flow: Flow::Next,
        },
        Op::VectorTruncate => Row {
            takes: Takes::Two(
                Kind::Own(Test::Object(Family::Vector)),
                Kind::Fixed(Plain::Int64),
            ),
            gives: Gives::Nothing,
            raises: Raises::One(Raise::NullReference),
            flow: Flow::Next,
        },
        Op::VectorGet => Row {
            takes: Takes::Two(
                Kind::Own(Test::Object(Family::Vector)),
                Kind::Fixed(Plain::Int64),
            ),
            gives: Gives::Part(Part::First),
            raises: Raises::Two(Raise::NullReference, Raise::IndexError),
            flow: Flow::Next,
        },
        Op::VectorSet => Row {
            takes: Takes::Three(
                Kind::Own(Test::Object(Family::Vector)),
                Kind::Fixed(Plain::Int64),
                Kind::Part(Part::First),
            ),
            gives: Gives::Nothing,
            raises: Raises::Two(Raise::NullReference, Raise::IndexError),
            flow: Flow::Next,
        },
        Op::SetInsert => Row {
            takes: Takes::Two(
                Kind::Own(Test::Object(Family::Set)),
                Kind::Part(Part::First),
            ),
            gives: Gives::Nothing,
            raises: Raises::Two(Raise::NullReference, Raise::ValueError),
            flow: Flow::Next,
        },
        Op::SetExists => Row {
            takes: Takes::Two(
                Kind::Own(Test::Object(Family::Set)),
                Kind::Part(Part::First),
            ),
            gives: Gives::Fixed(Plain::Bool),
            raises: Raises::Two(Raise::NullReference, Raise::ValueError),
            flow: Flow::Next,
        },
        Op::MapExists => Row {
            takes: Takes::Two(
                Kind::Own(Test::Object(Family::Map)),
                Kind::Part(Part::First),
            ),
            gives: Gives::Fixed(Plain::Bool),
            raises: Raises::Two(Raise::NullReference, Raise::ValueError),
            flow: Flow::Next,
        },
        Op::SetRemove => Row {
            takes: Takes::Two(
                Kind::Own(Test::Object(Family::Set)),
                Kind::Part(Part::First),
            ),
            gives: Gives::Nothing,
            raises: Raises::One(Raise::NullReference),
            flow: Flow::Next,
        },
        Op::MapRemove => Row {
            takes: Takes::Two(
                Kind::Own(Test::Object(Family::Map)),
                Kind::Part(Part::First),
            ),
            gives: Gives::Nothing,
            raises: Raises::One(Raise::NullReference),
            flow: Flow::Next,
        },
        Op::MapInsert => Row {
            takes: Takes::Three(
                Kind::Own(Test::Object(Family::Map)),
                Kind::Part(Part::First),
                Kind::Part(Part::Second),
            ),
            gives: Gives::Nothing,
            raises: Raises::Two(Raise::NullReference, Raise::ValueError),
            flow: Flow::Next,
        },
        Op::MapGet => Row {
            takes: Takes::Two(
                Kind::Own(Test::Object(Family::Map)),
                Kind::Part(Part::First),
            ),
            gives: Gives::Part(Part::Second),
            raises: Raises::Three(Raise::NullReference, Raise::IndexError, Raise::ValueError),
            flow: Flow::Next,
        },
        Op::MapGetDefault => Row {
            takes: Takes::Three(
                Kind::Own(Test::Object(Family::Map)),
                Kind::Part(Part::First),
                Kind::Part(Part::Second),
            ),
            gives: Gives::Part(Part::Second),
            raises: Raises::Two(Raise::NullReference, Raise::ValueError),
            flow: Flow::Next,
        },
        Op::SetTimeout => Row {
            takes: Takes::Four(
                Kind::Own(Test::Object(Family::Set)),
                Kind::Mode,
                Kind::Fixed(Plain::Span),
                Kind::Fixed(Plain::Manager),
            ),
            gives: Gives::Nothing,
            raises: Raises::Two(Raise::NullReference, Raise::ValueError),
            flow: Flow::Next,
        },
        Op::MapTimeout => Row {
            takes: Takes::Four(
                Kind::Own(Test::Object(Family::Map)),
                Kind::Mode,
                Kind::Fixed(Plain::Span),
                Kind::Fixed(Plain::Manager),
            ),
            gives: Gives::Nothing,
            raises: Raises::Two(Raise::NullReference, Raise::ValueError),
            flow: Flow::Next,
        },
        Op::IterBegin => Row {
            takes: Takes::One(Kind::Own(Test::Object(Family::Container))),
            gives: Gives::Iterator,
            raises: Raises::One(Raise::NullReference),
            flow: Flow::Next,
        },
        Op::IterAtEnd => Row {
            takes: Takes::One(Kind::Own(Test::Iterator)),
            gives: Gives::Fixed(Plain::Bool),
            raises: Raises::Two(Raise::NullReference, Raise::StaleIterator),
            flow: Flow::Next,
        },
        Op::IterValue => Row {
            takes: Takes::One(Kind::Own(Test::Iterator)),
            gives: Gives::Item,
            raises: Raises::Three(
                Raise::NullReference,
                Raise::StaleIterator,
                Raise::IndexError,
            ),
            flow: Flow::Next,
        },
        Op::IterNext => Row {
            takes: Takes::One(Kind::Own(Test::Iterator)),
            gives: Gives::Same,
            raises: Raises::Three(
                Raise::NullReference,
                Raise::StaleIterator,
                Raise::IndexError,
            ),
            flow: Flow::Next,
        },
        Op::ClassifierAdd => Row {
            takes: Takes::Four(
                Kind::Own(Test::Object(Family::Classifier)),
                Kind::Rule,
                Kind::Fixed(Plain::Int64),
                Kind::Part(Part::Second),
            ),
            gives: Gives::Nothing,
            raises: Raises::Two(Raise::NullReference, Raise::ValueError),
            flow: Flow::Next,
        },
        Op::ClassifierCompile => Row {
            takes: Takes::One(Kind::Own(Test::Object(Family::Classifier))),
            gives: Gives::Nothing,
            raises: Raises::One(Raise::NullReference),
            flow: Flow::Next,
        },
        Op::ClassifierGet => Row {
            takes: Takes::Two(Kind::Own(Test::Object(Family::Classifier)), Kind::Query),
            gives: Gives::Part(Part::Second),
            raises: Raises::Three(Raise::NullReference, Raise::ValueError, Raise::IndexError),
            flow: Flow::Next,
        },
        Op::ClassifierMatches => Row {
            takes: Takes::Two(Kind::Own(Test::Object(Family::Classifier)), Kind::Query),
            gives: Gives::Fixed(Plain::Bool),
            raises: Raises::Two(Raise::NullReference, Raise::ValueError),
            flow: Flow::Next,
        },
        Op::OverlayGet => Row {
            takes: Takes::Four(
                Kind::Overlay,
                Kind::OverlayField,
                Kind::Fixed(Plain::Bytes),
                Kind::Fixed(Plain::Int64),
            ),
            gives: Gives::Same,
            raises: Raises::One(Raise::ValueError),
            flow: Flow::Next,
        },
        Op::TimerMake => Row {
            takes: Takes::One(Kind::Fixed(Plain::Callable)),
            gives: Gives::Fixed(Plain::Timer),
            raises: Raises::One(Raise::NullReference),
            flow: Flow::Next,
        },
        Op::TimerCancel => Row {
            takes: Takes::One(Kind::Fixed(Plain::Timer)),
            gives: Gives::Nothing,
            raises: Raises::One(Raise::NullReference),
            flow: Flow::Next,
        },
        Op::TimerMgrSchedule => Row {
            takes: Takes::Three(
                Kind::Fixed(Plain::Manager),
                Kind::Fixed(Plain::Time),
                Kind::Fixed(Plain::Timer),
            ),
            gives: Gives::Nothing,
            raises: Raises::Two(Raise::NullReference, Raise::ValueError),
            flow: Flow::Next,
        },
        Op::TimerMgrCurrent => Row {
            takes: Takes::One(Kind::Fixed(Plain::Manager)),
            gives: Gives::Fixed(Plain::Time),
            raises: Raises::One(Raise::NullReference),
            flow: Flow::Next,
        },
        Op::TimerMgrAdvance => Row {
            takes: Takes::Two(Kind::Fixed(Plain::Manager), Kind::Fixed(Plain::Time)),
            gives: Gives::Nothing,
            raises: Raises::Two(Raise::NullReference, Raise::ValueError),
            flow: Flow::Calls,
        },
    }
}
