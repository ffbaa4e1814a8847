//! Readers of words that mean something.
ghost use Rattle.std.specs.Prelude.{◌≡◌, ◌<◌, length, OnOk, IsTrue};
ghost use Rattle.hilti_grammar.specs.Grammar.{has};
ghost use Rattle.hilti_reader.specs.Modules.{grammar, plain_types, plain_inner, singles, doubles, one_of};
ghost use Rattle.hilti_reader.specs.Readers.{ReadsTree};
ghost use Rattle.hilti_reader.specs.Spelled.{plain_kind, inner_kind, single_kind, double_kind};
ghost use Rattle.hilti_read_types.specs.Trees.{plain_word, inner_word, single_word, double_word};

use hilti_base::Place;
use hilti_kinds::Kind;
use hilti_module::{Double, PlainInner, PlainType, Single};
use hilti_reader::{Cursor, Keyword, Stop};

/// Types of one word.
pub const PLAIN_TYPES: [Kind; 9] = [
    Kind::Bool,
    Kind::String,
    Kind::Bytes,
    Kind::Addr,
    Kind::Net,
    Kind::Port,
    Kind::Time,
    Kind::Interval,
    Kind::Callable,
];

/// Inner types of one word.
pub const PLAIN_INNER: [Kind; 3] = [Kind::Bytes, Kind::Timer, Kind::TimerMgr];

/// Containers of one type.
pub const SINGLES: [Kind; 3] = [Kind::List, Kind::Vector, Kind::Set];

/// Containers of two types.
pub const DOUBLES: [Kind; 2] = [Kind::Map, Kind::Classifier];

/// Reads a type of one word.
pub fn read_plain(cursor: &mut Cursor) -> Result<(Place, PlainType), Stop>
    ensures reads { ReadsTree (one_of plain_types) plain_word cursor.old result cursor.new }
    ensures shorter { OnOk result (length cursor.new < length cursor.old) }
{
    let Keyword { place, kind } = cursor.keyword(&PLAIN_TYPES)?;
    Ok((place, plain_type(kind)))
}

/// Reads an inner type of one word.
pub fn read_plain_inner(cursor: &mut Cursor) -> Result<(Place, PlainInner), Stop>
    ensures reads { ReadsTree (one_of plain_inner) inner_word cursor.old result cursor.new }
    ensures shorter { OnOk result (length cursor.new < length cursor.old) }
{
    let Keyword { place, kind } = cursor.keyword(&PLAIN_INNER)?;
    Ok((place, inner_type(kind)))
}

/// Reads the word of a container of one type.
pub fn read_single(cursor: &mut Cursor) -> Result<(Place, Single), Stop>
    ensures reads { ReadsTree (one_of singles) single_word cursor.old result cursor.new }
    ensures shorter { OnOk result (length cursor.new < length cursor.old) }
{
    let Keyword { place, kind } = cursor.keyword(&SINGLES)?;
    Ok((place, single_container(kind)))
}

/// Reads the word of a container of two types.
pub fn read_double(cursor: &mut Cursor) -> Result<(Place, Double), Stop>
    ensures reads { ReadsTree (one_of doubles) double_word cursor.old result cursor.new }
    ensures shorter { OnOk result (length cursor.new < length cursor.old) }
{
    let Keyword { place, kind } = cursor.keyword(&DOUBLES)?;
    Ok((place, double_container(kind)))
}

/// The type of a word.
fn plain_type(kind: Kind) -> PlainType
    requires { IsTrue (has grammar plain_types kind) }
    ensures { plain_kind result ≡ kind }
{
    match kind {
        Kind::Bool => PlainType::Bool,
        Kind::String => PlainType::Text,
        Kind::Bytes => PlainType::Bytes,
        Kind::Addr => PlainType::Addr,
        Kind::Net => PlainType::Net,
        Kind::Port => PlainType::Port,
        Kind::Time => PlainType::Time,
        Kind::Interval => PlainType::Interval,
        Kind::Callable => PlainType::Callable,
        _ => unreachable!(),
    }
}

/// The inner type of a word.
fn inner_type(kind: Kind) -> PlainInner
    requires { IsTrue (has grammar plain_inner kind) }
    ensures { inner_kind result ≡ kind }
{
    match kind {
        Kind::Bytes => PlainInner::Bytes,
        Kind::Timer => PlainInner::Timer,
        Kind::TimerMgr => PlainInner::Manager,
        _ => unreachable!(),
    }
}

/// The container of a word.
fn single_container(kind: Kind) -> Single
    requires { IsTrue (has grammar singles kind) }
    ensures { single_kind result ≡ kind }
{
    match kind {
        Kind::List => Single::List,
        Kind::Vector => Single::Vector,
        Kind::Set => Single::Set,
        _ => unreachable!(),
    }
}

/// The container of a word.
fn double_container(kind: Kind) -> Double
    requires { IsTrue (has grammar doubles kind) }
    ensures { double_kind result ≡ kind }
{
    match kind {
        Kind::Map => Double::Map,
        Kind::Classifier => Double::Classifier,
        _ => unreachable!(),
    }
}
