//! Readers of names, and of what may be left out.
ghost use Rattle.std.specs.Prelude.{◌≡◌, ◌<◌, ◌≤◌, [], ◌∷◌, length, OnOk};
ghost use Rattle.hilti_grammar.specs.Grammar.{Symbol.Rule, Symbol.◌▹◌, Symbol.◌⊕◌};
ghost use Rattle.hilti_reader.specs.Modules.{RuleName.NameText as a_name, mark, word, maybe, word_behind};
ghost use Rattle.hilti_reader.specs.Readers.{ReadsTree};
ghost use Rattle.hilti_reader.specs.Spelled.{name_tree, maybe_word};

use crate::cursor::Cursor;
use crate::stop::Stop;
use hilti_kinds::Kind;
use hilti_module::{Name, Word};

/// Reads a word, and a second one behind `::`.
pub fn read_name(cursor: &mut Cursor) -> Result<Name, Stop>
    ensures reads { ReadsTree (Rule a_name) name_tree cursor.old result cursor.new }
    ensures shorter { OnOk result (length cursor.new < length cursor.old) }
{
    let first = cursor.word()?;
    let second = read_behind(cursor, Kind::Scope)?;
    Ok(Name { first, second })
}

/// Reads a word behind a mark, if the mark is there.
pub fn read_behind(cursor: &mut Cursor, before: Kind) -> Result<Option<Word>, Stop>
    ensures reads { ReadsTree (maybe (word_behind before)) maybe_word cursor.old result cursor.new }
    ensures shorter { OnOk result (length cursor.new ≤ length cursor.old) }
{
    if !cursor.sees(&[before]) {
        return Ok(None);
    }
    cursor.skip(before)?;
    let found = cursor.word()?;
    Ok(Some(found))
}
