//! Readers of what modules declare.
ghost use Rattle.std.specs.Prelude.{◌≡◌, ◌<◌, ◌≤◌, length, OnOk};
ghost use Rattle.hilti_grammar.specs.Grammar.{Symbol.Rule, Symbol.Many};
ghost use Rattle.hilti_reader.specs.Modules.{RuleName.ItemText as an_item, a_value, a_result, maybe};
ghost use Rattle.hilti_reader.specs.Readers.{ReadsTree};
ghost use Rattle.hilti_syntax.specs.Items.{result_tree, item_tree, value_tree, items_tree};

use crate::read_bodies::read_body;
use crate::read_hooks::read_hook_rest;
use hilti_kinds::Kind;
use hilti_module::{Item, Items, Literal, Parameter, TypeText};
use hilti_read_literals::read_literal;
use hilti_read_shapes::{read_arguments, read_parameter, read_shape};
use hilti_read_types::read_type;
use hilti_reader::{Cursor, Stop};

/// What begins an item: a word or what else begins a type, `void`, `hook`, `global` or `type`.
const ITEM_STARTS: [Kind; 23] = [
    Kind::Word,
    Kind::At,
    Kind::Unpack,
    Kind::Priority,
    Kind::Version,
    Kind::BytesForm,
    Kind::Ref,
    Kind::Iterator,
    Kind::Tuple,
    Kind::Int,
    Kind::Bool,
    Kind::String,
    Kind::Bytes,
    Kind::Addr,
    Kind::Net,
    Kind::Port,
    Kind::Time,
    Kind::Interval,
    Kind::Callable,
    Kind::Void,
    Kind::Hook,
    Kind::Global,
    Kind::Type,
];

/// Reads any number of items.
pub fn read_items(cursor: &mut Cursor) -> Result<Items, Stop>
    ensures reads { ReadsTree (Many (Rule an_item)) items_tree cursor.old result cursor.new }
    ensures shorter { OnOk result (length cursor.new ≤ length cursor.old) }
{
    let mut items = Items::new(cursor.alloc());
    'items: while cursor.sees(&ITEM_STARTS) {
        let next = read_item(cursor)?;
        items.push(next)?;
    }
    Ok(items)
}

/// Reads an item up to its end.
pub fn read_item(cursor: &mut Cursor) -> Result<Item, Stop>
    ensures reads { ReadsTree (Rule an_item) item_tree cursor.old result cursor.new }
    ensures shorter { OnOk result (length cursor.new < length cursor.old) }
{
    if cursor.sees(&[Kind::Type]) {
        cursor.skip(Kind::Type)?;
        let name = cursor.word()?;
        cursor.skip(Kind::Equals)?;
        let shape = read_shape(cursor)?;
        cursor.skip(Kind::LineEnd)?;
        return Ok(Item::Type { name, shape });
    }
    if cursor.sees(&[Kind::Global]) {
        cursor.skip(Kind::Global)?;
        let Parameter { kind, name } = read_parameter(cursor)?;
        let value = read_value(cursor)?;
        cursor.skip(Kind::LineEnd)?;
        return Ok(Item::Global { kind, name, value });
    }
    if cursor.sees(&[Kind::Hook]) {
        cursor.skip(Kind::Hook)?;
        let first = cursor.word()?;
        let hook = read_hook_rest(cursor, first)?;
        return Ok(hook);
    }
    let result = read_result(cursor)?;
    let called = cursor.word()?;
    let parameters = read_arguments(cursor)?;
    let body = read_body(cursor)?;
    Ok(Item::Function {
        result,
        name: called,
        parameters,
        body,
    })
}

/// Reads the value of a global, if one is there.
fn read_value(cursor: &mut Cursor) -> Result<Option<Literal>, Stop>
    ensures reads { ReadsTree (maybe a_value) value_tree cursor.old result cursor.new }
    ensures shorter { OnOk result (length cursor.new ≤ length cursor.old) }
{
    if !cursor.sees(&[Kind::Equals]) {
        return Ok(None);
    }
    cursor.skip(Kind::Equals)?;
    let found = read_literal(cursor)?;
    Ok(Some(found))
}

/// Reads a result, or `void`.
fn read_result(cursor: &mut Cursor) -> Result<Option<TypeText>, Stop>
    ensures reads { ReadsTree a_result result_tree cursor.old result cursor.new }
    ensures shorter { OnOk result (length cursor.new < length cursor.old) }
{
    if cursor.sees(&[Kind::Void]) {
        cursor.skip(Kind::Void)?;
        return Ok(None);
    }
    let kind = read_type(cursor)?;
    Ok(Some(kind))
}
