//! The kinds of tokens.
ghost use Rattle.std.specs.Prelude.{◌≡◌};
ghost use Rattle.hilti_kinds.specs.Kinds as spec_kinds;

use crate::kind::Kind;
use hilti_lexer::TokenKind;

/// How a word that means something is spelled, and its kind.
struct Spelling {
    word: &'static [u8],
    kind: Kind,
}

/// The words that mean something.
const KEYWORDS: [Spelling; 39] = [
    Spelling {
        word: b"module",
        kind: Kind::Module,
    },
    Spelling {
        word: b"type",
        kind: Kind::Type,
    },
    Spelling {
        word: b"global",
        kind: Kind::Global,
    },
    Spelling {
        word: b"hook",
        kind: Kind::Hook,
    },
    Spelling {
        word: b"local",
        kind: Kind::Local,
    },
    Spelling {
        word: b"catch",
        kind: Kind::Catch,
    },
    Spelling {
        word: b"void",
        kind: Kind::Void,
    },
    Spelling {
        word: b"struct",
        kind: Kind::Struct,
    },
    Spelling {
        word: b"enum",
        kind: Kind::Enum,
    },
    Spelling {
        word: b"overlay",
        kind: Kind::Overlay,
    },
    Spelling {
        word: b"exception",
        kind: Kind::Exception,
    },
    Spelling {
        word: b"bool",
        kind: Kind::Bool,
    },
    Spelling {
        word: b"int",
        kind: Kind::Int,
    },
    Spelling {
        word: b"string",
        kind: Kind::String,
    },
    Spelling {
        word: b"bytes",
        kind: Kind::Bytes,
    },
    Spelling {
        word: b"addr",
        kind: Kind::Addr,
    },
    Spelling {
        word: b"net",
        kind: Kind::Net,
    },
    Spelling {
        word: b"port",
        kind: Kind::Port,
    },
    Spelling {
        word: b"time",
        kind: Kind::Time,
    },
    Spelling {
        word: b"interval",
        kind: Kind::Interval,
    },
    Spelling {
        word: b"callable",
        kind: Kind::Callable,
    },
    Spelling {
        word: b"tuple",
        kind: Kind::Tuple,
    },
    Spelling {
        word: b"iterator",
        kind: Kind::Iterator,
    },
    Spelling {
        word: b"ref",
        kind: Kind::Ref,
    },
    Spelling {
        word: b"timer",
        kind: Kind::Timer,
    },
    Spelling {
        word: b"timer_mgr",
        kind: Kind::TimerMgr,
    },
    Spelling {
        word: b"list",
        kind: Kind::List,
    },
    Spelling {
        word: b"vector",
        kind: Kind::Vector,
    },
    Spelling {
        word: b"set",
        kind: Kind::Set,
    },
    Spelling {
        word: b"map",
        kind: Kind::Map,
    },
    Spelling {
        word: b"classifier",
        kind: Kind::Classifier,
    },
    Spelling {
        word: b"True",
        kind: Kind::True,
    },
    Spelling {
        word: b"False",
        kind: Kind::False,
    },
    Spelling {
        word: b"Null",
        kind: Kind::Null,
    },
    Spelling {
        word: b"at",
        kind: Kind::At,
    },
    Spelling {
        word: b"unpack",
        kind: Kind::Unpack,
    },
    Spelling {
        word: b"priority",
        kind: Kind::Priority,
    },
    Spelling {
        word: b"version",
        kind: Kind::Version,
    },
    Spelling {
        word: b"Bytes",
        kind: Kind::BytesForm,
    },
];

/// The kind of a token.
pub fn kind_of(token: &TokenKind) -> Kind
    ensures { result ≡ spec_kinds.kind_of token.now }
{
    match token {
        TokenKind::Word(bytes) => word_kind(bytes.bytes()),
        TokenKind::Number(_) => Kind::Number,
        TokenKind::Decimal(_, _) => Kind::Decimal,
        TokenKind::Address(_) => Kind::Address,
        TokenKind::Net(_, _) => Kind::NetNumber,
        TokenKind::Port(_, _) => Kind::PortNumber,
        TokenKind::Text(_) => Kind::Text,
        TokenKind::Bytes(_) => Kind::BytesText,
        TokenKind::Mark(byte) => mark_kind(*byte),
        TokenKind::LineEnd => Kind::LineEnd,
    }
}

/// The kind of a word.
fn word_kind(bytes: &[u8]) -> Kind
    ensures { result ≡ spec_kinds.look_up spec_kinds.keyword_kinds bytes.now }
{
    for keyword in &KEYWORDS {
        if keyword.word == bytes {
            return keyword.kind;
        }
    }
    Kind::Word
}

/// The kind of a mark, by its byte.
fn mark_kind(byte: u8) -> Kind
    ensures { result ≡ spec_kinds.mark_kind byte }
{
    match byte {
        b'{' => Kind::OpenBrace,
        b'}' => Kind::CloseBrace,
        b'(' => Kind::OpenParen,
        b')' => Kind::CloseParen,
        b'<' => Kind::Less,
        b'>' => Kind::Greater,
        b',' => Kind::Comma,
        b':' => Kind::Colon,
        b'*' => Kind::Star,
        b'.' => Kind::Dot,
        b'=' => Kind::Equals,
        b'@' => Kind::AtSign,
        _ => Kind::Scope,
    }
}
