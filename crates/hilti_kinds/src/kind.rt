//! Kinds of tokens.
ghost use Rattle.std.specs.Prelude.{◌≡◌};
ghost use Rattle.hilti_kinds.specs.Kinds as spec_kinds;

/// What the grammar tells tokens apart by: each reserved word, the words that mean something at one
/// place alone, other words, literals and marks.
#[derive(Clone, Copy, Debug, PartialEq, Eq)]
pub enum Kind {
    /// `module`
    Module,
    /// `type`
    Type,
    /// `global`
    Global,
    /// `hook`
    Hook,
    /// `local`
    Local,
    /// `catch`
    Catch,
    /// `void`
    Void,
    /// `struct`
    Struct,
    /// `enum`
    Enum,
    /// `overlay`
    Overlay,
    /// `exception`
    Exception,
    /// `bool`
    Bool,
    /// `int`
    Int,
    /// `string`
    String,
    /// `bytes`
    Bytes,
    /// `addr`
    Addr,
    /// `net`
    Net,
    /// `port`
    Port,
    /// `time`
    Time,
    /// `interval`
    Interval,
    /// `callable`
    Callable,
    /// `tuple`
    Tuple,
    /// `iterator`
    Iterator,
    /// `ref`
    Ref,
    /// `timer`
    Timer,
    /// `timer_mgr`
    TimerMgr,
    /// `list`
    List,
    /// `vector`
    Vector,
    /// `set`
    Set,
    /// `map`
    Map,
    /// `classifier`
    Classifier,
    /// `True`
    True,
    /// `False`
    False,
    /// `Null`
    Null,
    /// `at`, which is a word elsewhere
    At,
    /// `unpack`, which is a word elsewhere
    Unpack,
    /// `priority`, which is a word elsewhere
    Priority,
    /// `version`, which is a word elsewhere
    Version,
    /// `Bytes`, which is a word elsewhere
    BytesForm,
    /// Any other word.
    Word,
    /// A whole number.
    Number,
    /// Seconds with a fraction.
    Decimal,
    /// An address.
    Address,
    /// A net.
    NetNumber,
    /// A port.
    PortNumber,
    /// A string.
    Text,
    /// A bytes literal.
    BytesText,
    /// `{`
    OpenBrace,
    /// `}`
    CloseBrace,
    /// `(`
    OpenParen,
    /// `)`
    CloseParen,
    /// `<`
    Less,
    /// `>`
    Greater,
    /// `,`
    Comma,
    /// `:`
    Colon,
    /// `::`
    Scope,
    /// `.`
    Dot,
    /// `=`
    Equals,
    /// `@`
    AtSign,
    /// `*`
    Star,
    /// One or more line ends.
    LineEnd,
    /// A `<` with 64 others open, which stands nowhere.
    DeepLess,
}

impl Kind {
    /// Whether this is the other kind.
    pub fn is(self, other: Kind) -> bool
        ensures { result ≡ spec_kinds.is self other }
    {
        self as u8 == other as u8
    }
}
