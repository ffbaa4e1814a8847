//! Readers of what declared types are.
ghost use Rattle.std.specs.Prelude.{◌<◌, ◌≤◌, length, OnOk};
ghost use Rattle.hilti_grammar.specs.Grammar.{Symbol.Rule, Symbol.◌▹◌};
ghost use Rattle.hilti_kinds.specs.declared.kind.Kind.TheVariants as kinds;
ghost use Rattle.hilti_reader.specs.Modules.{RuleName.ShapeText as a_shape, word, maybe, listed, struct_text, enum_text, overlay_text, exception_text, parent as a_parent};
ghost use Rattle.hilti_reader.specs.Readers.{ReadsTree};
ghost use Rattle.hilti_read_shapes.specs.Shapes.{shape_tree, words_tree, struct_tree, enum_tree, overlay_tree, exception_tree, parent_tree};

use crate::read_forms::read_fields;
use crate::read_parameters::read_parameters;
use hilti_base::Place;
use hilti_kinds::Kind;
use hilti_module::{Fields, Name, Parameters, Shape, Words};
use hilti_reader::{Cursor, Stop, read_keyword, read_name};

/// Reads what a declared type is.
pub fn read_shape(cursor: &mut Cursor) -> Result<Shape, Stop>
    ensures reads { ReadsTree (Rule a_shape) shape_tree cursor.old result cursor.new }
    ensures shorter { OnOk result (length cursor.new < length cursor.old) }
{
    if cursor.sees(&[Kind::Struct]) {
        let (place, fields) = read_struct(cursor)?;
        return Ok(Shape::Struct { place, fields });
    }
    if cursor.sees(&[Kind::Enum]) {
        let (place, words) = read_enum(cursor)?;
        return Ok(Shape::Enum { place, words });
    }
    if cursor.sees(&[Kind::Overlay]) {
        let (place, fields) = read_overlay(cursor)?;
        return Ok(Shape::Overlay { place, fields });
    }
    let (place, parent) = read_exception(cursor)?;
    Ok(Shape::Exception { place, parent })
}

/// Reads the word and the fields of a struct.
fn read_struct(cursor: &mut Cursor) -> Result<(Place, Parameters), Stop>
    ensures reads { ReadsTree struct_text struct_tree cursor.old result cursor.new }
    ensures shorter { OnOk result (length cursor.new < length cursor.old) }
{
    let place = read_keyword(cursor, Kind::Struct)?;
    cursor.skip(Kind::OpenBrace)?;
    let fields = read_parameters(cursor)?;
    cursor.skip(Kind::CloseBrace)?;
    Ok((place, fields))
}

/// Reads the word and the labels of an enum.
fn read_enum(cursor: &mut Cursor) -> Result<(Place, Words), Stop>
    ensures reads { ReadsTree enum_text enum_tree cursor.old result cursor.new }
    ensures shorter { OnOk result (length cursor.new < length cursor.old) }
{
    let place = read_keyword(cursor, Kind::Enum)?;
    cursor.skip(Kind::OpenBrace)?;
    let words = read_words(cursor)?;
    cursor.skip(Kind::CloseBrace)?;
    Ok((place, words))
}

/// Reads words with commas between them.
fn read_words(cursor: &mut Cursor) -> Result<Words, Stop>
    ensures reads { ReadsTree (listed word) words_tree cursor.old result cursor.new }
    ensures shorter { OnOk result (length cursor.new < length cursor.old) }
{
    let mut words = Words::new(cursor.alloc());
    let first = cursor.word()?;
    words.push(first)?;
    'words: while cursor.sees(&[Kind::Comma]) {
        cursor.skip(Kind::Comma)?;
        let next = cursor.word()?;
        words.push(next)?;
    }
    Ok(words)
}

/// Reads the word and the fields of an overlay.
fn read_overlay(cursor: &mut Cursor) -> Result<(Place, Fields), Stop>
    ensures reads { ReadsTree overlay_text overlay_tree cursor.old result cursor.new }
    ensures shorter { OnOk result (length cursor.new < length cursor.old) }
{
    let place = read_keyword(cursor, Kind::Overlay)?;
    cursor.skip(Kind::OpenBrace)?;
    let fields = read_fields(cursor)?;
    cursor.skip(Kind::CloseBrace)?;
    Ok((place, fields))
}

/// Reads the word and the parent of an exception.
fn read_exception(cursor: &mut Cursor) -> Result<(Place, Option<Name>), Stop>
    ensures reads { ReadsTree exception_text exception_tree cursor.old result cursor.new }
    ensures shorter { OnOk result (length cursor.new < length cursor.old) }
{
    let place = read_keyword(cursor, Kind::Exception)?;
    let parent = read_parent(cursor)?;
    Ok((place, parent))
}

/// Reads a name behind a colon, if the colon is there.
fn read_parent(cursor: &mut Cursor) -> Result<Option<Name>, Stop>
    ensures reads { ReadsTree (maybe a_parent) parent_tree cursor.old result cursor.new }
    ensures shorter { OnOk result (length cursor.new ≤ length cursor.old) }
{
    if !cursor.sees(&[Kind::Colon]) {
        return Ok(None);
    }
    cursor.skip(Kind::Colon)?;
    let name = read_name(cursor)?;
    Ok(Some(name))
}
