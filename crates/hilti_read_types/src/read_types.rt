//! Readers of types.
ghost use Rattle.std.specs.Prelude.{◌≡◌, ◌<◌, [], ◌∷◌, length, OnOk};
ghost use Rattle.hilti_grammar.specs.Grammar.{Symbol.Rule};
ghost use Rattle.hilti_reader.specs.Modules.{RuleName.TypeText as a_type, RuleName.Parametric as a_parametric, RuleName.InnerText as an_inner, RuleName.Container as a_container, listed};
ghost use Rattle.hilti_reader.specs.Readers.{ReadsTree};
ghost use Rattle.hilti_read_types.specs.Trees.{type_tree, types_tree, parametric_tree, inner_tree, container_tree};

use crate::read_words::{
    DOUBLES, PLAIN_INNER, PLAIN_TYPES, SINGLES, read_double, read_plain, read_plain_inner,
    read_single,
};
use hilti_kinds::Kind;
use hilti_module::{Container, InnerText, Parametric, TypeText, TypeTexts};
use hilti_reader::{Cursor, Stop, read_keyword, read_name};
use sqlite_items::Boxed;

/// Words that begin types with something between `<` and `>`.
pub const PARAMETRIC: [Kind; 4] = [Kind::Ref, Kind::Iterator, Kind::Tuple, Kind::Int];

/// Words that begin containers.
pub const CONTAINERS: [Kind; 5] = [
    Kind::Map,
    Kind::Classifier,
    Kind::List,
    Kind::Vector,
    Kind::Set,
];

/// Reads a type.
#[cycle(read_type)]
pub fn read_type(cursor: &mut Cursor) -> Result<TypeText, Stop>
    ensures reads { ReadsTree (Rule a_type) type_tree cursor.old result cursor.new }
    ensures shorter { OnOk result (length cursor.new < length cursor.old) }
{
    if cursor.sees(&PLAIN_TYPES) {
        let (place, plain) = read_plain(cursor)?;
        return Ok(TypeText::Plain { place, plain });
    }
    if cursor.sees(&PARAMETRIC) {
        let parametric = read_parametric(cursor)?;
        return Ok(TypeText::Parametric(parametric));
    }
    let name = read_name(cursor)?;
    Ok(TypeText::Named(name))
}

/// Reads a type with something between `<` and `>`.
#[cycle(read_type)]
pub fn read_parametric(cursor: &mut Cursor) -> Result<Parametric, Stop>
    ensures reads { ReadsTree (Rule a_parametric) parametric_tree cursor.old result cursor.new }
    ensures shorter { OnOk result (length cursor.new < length cursor.old) }
{
    if cursor.sees(&[Kind::Int]) {
        let int = read_keyword(cursor, Kind::Int)?;
        cursor.skip(Kind::Less)?;
        let bits = cursor.number()?;
        cursor.skip(Kind::Greater)?;
        return Ok(Parametric::Int { place: int, bits });
    }
    if cursor.sees(&[Kind::Tuple]) {
        let tuple = read_keyword(cursor, Kind::Tuple)?;
        cursor.skip(Kind::Less)?;
        let parts = read_types(cursor)?;
        cursor.skip(Kind::Greater)?;
        return Ok(Parametric::Tuple {
            place: tuple,
            parts,
        });
    }
    if cursor.sees(&[Kind::Iterator]) {
        let iterator = read_keyword(cursor, Kind::Iterator)?;
        cursor.skip(Kind::Less)?;
        let over = read_inner(cursor)?;
        cursor.skip(Kind::Greater)?;
        return Ok(Parametric::Iterator {
            place: iterator,
            over,
        });
    }
    let reference = read_keyword(cursor, Kind::Ref)?;
    cursor.skip(Kind::Less)?;
    let to = read_inner(cursor)?;
    cursor.skip(Kind::Greater)?;
    Ok(Parametric::Ref {
        place: reference,
        to,
    })
}

/// Reads types with commas between them.
#[cycle(read_type)]
pub fn read_types(cursor: &mut Cursor) -> Result<TypeTexts, Stop>
    ensures reads { ReadsTree (listed (Rule a_type)) types_tree cursor.old result cursor.new }
    ensures shorter { OnOk result (length cursor.new < length cursor.old) }
{
    let mut parts = TypeTexts::new(cursor.alloc());
    let first = read_type(cursor)?;
    parts.push(first)?;
    'parts: while cursor.sees(&[Kind::Comma]) {
        cursor.skip(Kind::Comma)?;
        let next = read_type(cursor)?;
        parts.push(next)?;
    }
    Ok(parts)
}

/// Reads what stands between the `<` and `>` of a reference or an iterator.
#[cycle(read_type)]
pub fn read_inner(cursor: &mut Cursor) -> Result<InnerText, Stop>
    ensures reads { ReadsTree (Rule an_inner) inner_tree cursor.old result cursor.new }
    ensures shorter { OnOk result (length cursor.new < length cursor.old) }
{
    if cursor.sees(&PLAIN_INNER) {
        let (place, word) = read_plain_inner(cursor)?;
        return Ok(InnerText::Word { place, word });
    }
    if cursor.sees(&CONTAINERS) {
        let container = read_container(cursor)?;
        return Ok(InnerText::Container(container));
    }
    let name = read_name(cursor)?;
    Ok(InnerText::Declared(name))
}

/// Reads a container.
#[cycle(read_type)]
pub fn read_container(cursor: &mut Cursor) -> Result<Container, Stop>
    ensures reads { ReadsTree (Rule a_container) container_tree cursor.old result cursor.new }
    ensures shorter { OnOk result (length cursor.new < length cursor.old) }
{
    if cursor.sees(&SINGLES) {
        let (place, single) = read_single(cursor)?;
        cursor.skip(Kind::Less)?;
        let only = read_type(cursor)?;
        cursor.skip(Kind::Greater)?;
        let item = Boxed::new(cursor.alloc(), only)?;
        return Ok(Container::Single {
            place,
            single,
            item,
        });
    }
    let (place, double) = read_double(cursor)?;
    cursor.skip(Kind::Less)?;
    let key = read_type(cursor)?;
    cursor.skip(Kind::Comma)?;
    let value = read_type(cursor)?;
    cursor.skip(Kind::Greater)?;
    let first = Boxed::new(cursor.alloc(), key)?;
    let second = Boxed::new(cursor.alloc(), value)?;
    Ok(Container::Double {
        place,
        double,
        first,
        second,
    })
}
