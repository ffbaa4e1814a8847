//! What a row says: what it asks of its operands, what it gives, what it raises, and where a run goes on behind it.
ghost use Rattle.std.specs.Prelude.{◌≡◌};
ghost use Rattle.hilti_table.specs.Rows.{ends_block};

use hilti_base::Raise;

/// A type that rows name.
#[derive(Clone, Copy, Debug, PartialEq, Eq)]
pub enum Plain {
    Bool,
    Int8,
    Int16,
    Int64,
    Text,
    Bytes,
    Addr,
    Net,
    Port,
    Time,
    /// An interval of time.
    Span,
    Callable,
    /// A reference to a timer.
    Timer,
    /// A reference to a timer manager.
    Manager,
}

/// A family of objects.
#[derive(Clone, Copy, Debug, PartialEq, Eq)]
pub enum Family {
    Struct,
    List,
    Vector,
    Set,
    Map,
    Classifier,
    /// A list, a vector, a set or a map.
    Container,
}

/// What a row asks of a value's own type.
#[derive(Clone, Copy, Debug, PartialEq, Eq)]
pub enum Test {
    Any,
    /// A key type: its values have an order and a hash.
    Key,
    /// A type whose values can be sent to another thread and printed.
    Sendable,
    /// A reference, an iterator or a callable.
    Nullable,
    /// Whole numbers of any width.
    Int,
    Tuple,
    Iterator,
    /// A reference to an object of the family.
    Object(Family),
}

/// A part of the type of an object: the element or key of a container, or its value; the first or the second type of a
/// classifier.
#[derive(Clone, Copy, Debug, PartialEq, Eq)]
pub enum Part {
    First,
    Second,
}

/// Which functions an operand may name.
#[derive(Clone, Copy, Debug, PartialEq, Eq)]
pub enum Callee {
    Any,
    /// Those without a result.
    Void,
}

/// What a row asks of an operand. Where this speaks of something known, the operands before it told it.
#[derive(Clone, Copy, Debug, PartialEq, Eq)]
pub enum Kind {
    /// A value of this type.
    Fixed(Plain),
    /// A whole number of the instruction's width.
    Sized,
    /// A value of this part of the known object.
    Part(Part),
    /// A value of the known type.
    Same,
    /// A value of the type of the function's result.
    Returned,
    /// A value whose own type passes the test, and is known behind it.
    Own(Test),
    /// A function, known behind it.
    Function(Callee),
    /// A hook, known behind it.
    Hook,
    /// A label of the function.
    Label,
    /// An exception.
    Exception,
    /// An overlay, known behind it.
    Overlay,
    /// The type of an object that can be made; a reference to it is the type known behind it.
    New,
    /// The word `Create` or `Access`.
    Mode,
    /// The place of a part of the known tuple, as a literal; the part's type is known behind it.
    Index,
    /// A field of the known struct; the field's type is known behind it.
    Field,
    /// A field of the known overlay; the field's type is known behind it.
    OverlayField,
    /// In parentheses, a value for each parameter of the known function or hook.
    Arguments,
    /// Such values, of sendable types alone.
    Sent,
    /// In parentheses, the 1 to 8 parts of a tuple, whose type is known behind them.
    Parts,
    /// In parentheses, for each part of the first type of the known classifier a value or `*`.
    Rule,
    /// In parentheses, for each such part a value that is asked for; for nets an address.
    Query,
}

/// The operands that a row takes, in order.
#[derive(Clone, Copy, Debug, PartialEq, Eq)]
pub enum Takes {
    Nothing,
    One(Kind),
    Two(Kind, Kind),
    Three(Kind, Kind, Kind),
    Four(Kind, Kind, Kind, Kind),
    /// 0 to 8 operands, each of this kind.
    UpToEight(Kind),
}

/// The type of the target. A target can be left out at `Popped` and `Called` alone.
#[derive(Clone, Copy, Debug, PartialEq, Eq)]
pub enum Gives {
    /// There is no target.
    Nothing,
    Fixed(Plain),
    /// A whole number of the instruction's width.
    Sized,
    /// The known type.
    Same,
    /// This part of the known object.
    Part(Part),
    /// The element of the known list; the target may be left out.
    Popped,
    /// An iterator over the known container.
    Iterator,
    /// What an iterator of the known type goes over: elements, keys, or tuples of a key and its value.
    Item,
    /// The result of the known function; the target may be left out, and is where the function has no result.
    Called,
    /// A whole number of any width.
    AnyInt,
}

/// The built-in exceptions that an instruction raises by itself, in the order in which their causes are looked at.
#[derive(Clone, Copy, Debug, PartialEq, Eq)]
pub enum Raises {
    Nothing,
    One(Raise),
    Two(Raise, Raise),
    Three(Raise, Raise, Raise),
}

/// The functions and hook bodies that an instruction may stand in.
#[derive(Clone, Copy, Debug, PartialEq, Eq)]
pub enum Body {
    /// A function without a result, or a hook body.
    Void,
    /// A function with a result.
    Result,
    /// A hook body.
    Hook,
}

/// Where a run goes on behind an instruction that raises nothing.
#[derive(Clone, Copy, Debug, PartialEq, Eq)]
pub enum Flow {
    /// At the next instruction.
    Next,
    /// At what it calls, and then at the next instruction. A raise that leaves what it calls stands at it.
    Calls,
    /// At the first instruction of a block.
    Jumps,
    /// Behind the end of the function or the hook's run. The instruction stands in such bodies alone.
    Leaves(Body),
    /// At the handlers of the exception that it names and raises.
    Throws,
}

impl Flow {
    /// Tells whether the instruction is an ending one, which stands last in its block and nowhere else.
    pub fn ends(self) -> bool
        ensures { result ≡ ends_block self }
    {
        match self {
            Flow::Next | Flow::Calls => false,
            Flow::Jumps | Flow::Leaves(_) | Flow::Throws => true,
        }
    }
}

/// The row of an instruction.
#[derive(Clone, Copy, Debug, PartialEq, Eq)]
pub struct Row {
    pub takes: Takes,
    pub gives: Gives,
    pub raises: Raises,
    pub flow: Flow,
}
