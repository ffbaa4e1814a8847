//! The reader of a module's whole text.
ghost use Rattle.std.specs.Prelude.{◌≡◌, ◌≤◌, length, IfOk, OnOk, Err};
ghost use Rattle.hilti_grammar.specs.Grammar.{Symbol.Rule};
ghost use Rattle.hilti_base.specs.declared.names.Place.{Place};
ghost use Rattle.hilti_reader.specs.declared.stop.Stop.{Stop};
ghost use Rattle.hilti_syntax.specs.Items.{module_tree, version_tree};
ghost use Rattle.hilti_reader.specs.Modules.{RuleName.ModuleText as a_module, a_version, maybe};
ghost use Rattle.hilti_reader.specs.Readers.{ReadsTree};
ghost use Rattle.hilti_syntax.specs.Texts.{TextIsModule, RefusedText, ReadsModule, RefusesPieces, IsRefusalOf};

use crate::read_items::read_items;
use hilti_base::{Place, Refusal};
use hilti_kinds::Kind;
use hilti_lexer::lex;
use hilti_module::{Module, Number};
use hilti_pieces::{end_place, pieces};
use hilti_reader::{Cursor, Stop};
use std::alloc::Global;

/// Reads the text of a module. It is refused with the code of the lexer's fault, 10 at a token that
/// the grammar doesn't allow, its end counted as one, and 11 at a `<` with 64 others open.
/// `NoMemory` may come at any token. It takes time in proportion to the text.
pub fn read_module(alloc: Global, file: u32, text: &[u8]) -> Result<Module, Refusal>
    requires { length text.now ≤ 1048576 }
    ensures module { IfOk result (λ m. TextIsModule file text.now m) }
    ensures refusal { RefusedText file text.now result }
{
    let tokens = lex(alloc, file, text)?;
    let end = end_place(file, text);
    let pieces = pieces(alloc, tokens, end)?;
    let mut cursor = Cursor::new(alloc, pieces);
    match read_all(&mut cursor) {
        Ok(module) => Ok(module),
        Err(stop) => Err(refusal_at(stop, cursor.next_place(end))),
    }
}

/// Reads all tokens as a module. They are at most 1,048,577: one for each byte of the longest text,
/// and its end.
fn read_all(cursor: &mut Cursor) -> Result<Module, Stop>
    requires { length cursor.old ≤ 1048577 }
    ensures module { ReadsModule cursor.old result }
    ensures refusal { RefusesPieces cursor.old result cursor.new }
{
    let module = read_whole(cursor)?;
    if !cursor.is_at_end() {
        return Err(Stop::Unexpected);
    }
    Ok(module)
}

/// Reads a module from at most 1,048,577 tokens, and leaves what is behind it.
fn read_whole(cursor: &mut Cursor) -> Result<Module, Stop>
    requires { length cursor.old ≤ 1048577 }
    ensures { ReadsTree (Rule a_module) module_tree cursor.old result cursor.new }
{
    cursor.skip(Kind::Module)?;
    let name = cursor.word()?;
    let version = read_version(cursor)?;
    cursor.skip(Kind::LineEnd)?;
    let items = read_items(cursor)?;
    Ok(Module {
        name,
        version,
        items,
    })
}

/// Reads the version of a module, if one is there.
fn read_version(cursor: &mut Cursor) -> Result<Option<Number>, Stop>
    ensures reads { ReadsTree (maybe a_version) version_tree cursor.old result cursor.new }
    ensures shorter { OnOk result (length cursor.new ≤ length cursor.old) }
{
    if !cursor.sees(&[Kind::Version]) {
        return Ok(None);
    }
    cursor.skip(Kind::Version)?;
    let found = cursor.number()?;
    Ok(Some(found))
}

/// The refusal of tokens where reading stopped.
fn refusal_at(stop: Stop, place: Place) -> Refusal
    ensures { IsRefusalOf stop place result }
{
    match stop {
        Stop::Unexpected => Refusal::At { place, code: 10 },
        Stop::TooDeep => Refusal::At { place, code: 11 },
        Stop::NoMemory => Refusal::NoMemory,
    }
}
