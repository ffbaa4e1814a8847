//! Readers of the fields of overlays.
ghost use Rattle.std.specs.Prelude.{◌≡◌, ◌<◌, ◌≤◌, false, length, codes, bytes_eq, IfOk, OnOk};
ghost use Rattle.hilti_grammar.specs.Grammar.{Symbol.Rule, Symbol.◌▹◌};
ghost use Rattle.hilti_kinds.specs.declared.kind.Kind.TheVariants as kinds;
ghost use Rattle.hilti_reader.specs.Modules.{RuleName.FormText as a_form, RuleName.FieldText as a_field, kept_one, other_forms, comma, number, maybe, listed, a_range, behind_comma, one_of};
ghost use Rattle.hilti_reader.specs.Readers.{ReadsTree};
ghost use Rattle.hilti_reader.specs.Spelled.{word_tree, maybe_tree, maybe_number};
ghost use Rattle.hilti_read_shapes.specs.Shapes.{form_tree, field_tree, fields_tree, range_tree};

use hilti_kinds::Kind;
use hilti_lexer::{Token, TokenKind};
use hilti_module::{Bits, Field, Fields, Form, Number, Word};
use hilti_read_types::read_type;
use hilti_reader::{Cursor, Stop};

/// Words of a form other than `Bytes`.
const OTHER_FORMS: [Kind; 5] = [
    Kind::Word,
    Kind::At,
    Kind::Unpack,
    Kind::Priority,
    Kind::Version,
];

/// Reads fields with commas between them.
pub fn read_fields(cursor: &mut Cursor) -> Result<Fields, Stop>
    ensures reads { ReadsTree (listed (Rule a_field)) fields_tree cursor.old result cursor.new }
    ensures shorter { OnOk result (length cursor.new < length cursor.old) }
{
    let mut fields = Fields::new(cursor.alloc());
    let first = read_field(cursor)?;
    fields.push(first)?;
    'fields: while cursor.sees(&[Kind::Comma]) {
        cursor.skip(Kind::Comma)?;
        let next = read_field(cursor)?;
        fields.push(next)?;
    }
    Ok(fields)
}

/// Reads a field of an overlay.
pub fn read_field(cursor: &mut Cursor) -> Result<Field, Stop>
    ensures reads { ReadsTree (Rule a_field) field_tree cursor.old result cursor.new }
    ensures shorter { OnOk result (length cursor.new < length cursor.old) }
{
    let name = cursor.word()?;
    cursor.skip(Kind::Colon)?;
    let kind = read_type(cursor)?;
    cursor.skip(Kind::At)?;
    let offset = cursor.number()?;
    cursor.skip(Kind::Unpack)?;
    let form = read_form(cursor)?;
    Ok(Field {
        name,
        kind,
        offset,
        form,
    })
}

/// Reads how a field is read.
pub fn read_form(cursor: &mut Cursor) -> Result<Form, Stop>
    ensures reads { ReadsTree (Rule a_form) form_tree cursor.old result cursor.new }
    ensures shorter { OnOk result (length cursor.new < length cursor.old) }
{
    if !cursor.sees(&[Kind::BytesForm]) {
        let word = take_other_word(cursor)?;
        let bits = read_bits(cursor)?;
        return Ok(Form::Word { word, bits });
    }
    let word = take_bytes_word(cursor)?;
    if !cursor.sees(&[Kind::OpenParen]) {
        return Ok(Form::Word { word, bits: None });
    }
    cursor.skip(Kind::OpenParen)?;
    let low = cursor.number()?;
    let second = read_second(cursor)?;
    cursor.skip(Kind::CloseParen)?;
    match second {
        None => Ok(Form::Bytes {
            place: word.place,
            length: low,
        }),
        Some(high) => Ok(Form::Word {
            word,
            bits: Some(Bits { low, high }),
        }),
    }
}

/// Reads a range of bits in parentheses, if it is there.
fn read_bits(cursor: &mut Cursor) -> Result<Option<Bits>, Stop>
    ensures reads { ReadsTree (maybe a_range) (maybe_tree range_tree) cursor.old result cursor.new }
    ensures shorter { OnOk result (length cursor.new ≤ length cursor.old) }
{
    if !cursor.sees(&[Kind::OpenParen]) {
        return Ok(None);
    }
    cursor.skip(Kind::OpenParen)?;
    let low = cursor.number()?;
    cursor.skip(Kind::Comma)?;
    let high = cursor.number()?;
    cursor.skip(Kind::CloseParen)?;
    Ok(Some(Bits { low, high }))
}

/// Reads a number behind a comma, if the comma is there.
fn read_second(cursor: &mut Cursor) -> Result<Option<Number>, Stop>
    ensures reads { ReadsTree (maybe behind_comma) maybe_number cursor.old result cursor.new }
    ensures shorter { OnOk result (length cursor.new ≤ length cursor.old) }
{
    if !cursor.sees(&[Kind::Comma]) {
        return Ok(None);
    }
    cursor.skip(Kind::Comma)?;
    let high = cursor.number()?;
    Ok(Some(high))
}

/// Takes the word `Bytes`.
fn take_bytes_word(cursor: &mut Cursor) -> Result<Word, Stop>
    ensures reads { ReadsTree (kept_one kinds.BytesForm) word_tree cursor.old result cursor.new }
    ensures spelled { IfOk result (λ word. word.bytes ≡ codes "Bytes") }
    ensures shorter { OnOk result (length cursor.new < length cursor.old) }
{
    let Token { place, kind } = cursor.take(&[Kind::BytesForm])?;
    match kind {
        TokenKind::Word(bytes) => Ok(Word { place, bytes }),
        _ => unreachable!(),
    }
}

/// Takes a word of a form other than `Bytes`.
fn take_other_word(cursor: &mut Cursor) -> Result<Word, Stop>
    ensures reads { ReadsTree (one_of other_forms) word_tree cursor.old result cursor.new }
    ensures other { IfOk result (λ word. bytes_eq word.bytes (codes "Bytes") ≡ false) }
    ensures shorter { OnOk result (length cursor.new < length cursor.old) }
{
    let Token { place, kind } = cursor.take(&OTHER_FORMS)?;
    match kind {
        TokenKind::Word(bytes) => Ok(Word { place, bytes }),
        _ => unreachable!(),
    }
}
