//! Readers of words of some kinds, and of words and marks whose places are kept.
ghost use Rattle.std.specs.Prelude.{◌≡◌, ◌<◌, [], ◌∷◌, length, IsTrue, IfOk, OnOk};
ghost use Rattle.hilti_grammar.specs.Grammar.{Symbol.One, Keep.Placed, has};
ghost use Rattle.hilti_grammar.specs.Predictive.{within};
ghost use Rattle.hilti_kinds.specs.declared.kind.Kind.TheVariants as kinds;
ghost use Rattle.hilti_kinds.specs.Kinds.{keyword_kinds};
ghost use Rattle.hilti_reader.specs.Modules.{grammar, any_words};
ghost use Rattle.hilti_reader.specs.Readers.{ReadsTree};
ghost use Rattle.hilti_reader.specs.Spelled.{word_tree, word_kind};
ghost use Rattle.hilti_reader.specs.Placed.{ReadsKeyword, ReadsMark};

use crate::cursor::Cursor;
use crate::stop::Stop;
use hilti_base::Place;
use hilti_kinds::Kind;
use hilti_lexer::{Token, TokenKind};
use hilti_module::Word;

/// Takes a word of one of these kinds.
pub fn read_word_of(cursor: &mut Cursor, kinds: &[Kind]) -> Result<Word, Stop>
    requires { IsTrue (within grammar kinds.now any_words) }
    ensures reads { ReadsTree (One Placed kinds.now) word_tree cursor.old result cursor.new }
    ensures kind { IfOk result (λ word. IsTrue (has grammar kinds.now (word_kind word))) }
    ensures shorter { OnOk result (length cursor.new < length cursor.old) }
{
    let Token { place, kind } = cursor.take(kinds)?;
    match kind {
        TokenKind::Word(bytes) => Ok(Word { place, bytes }),
        _ => unreachable!(),
    }
}

/// Takes a `}`.
pub fn read_close_brace(cursor: &mut Cursor) -> Result<Place, Stop>
    ensures reads { ReadsMark kinds.CloseBrace 125 cursor.old result cursor.new }
    ensures shorter { OnOk result (length cursor.new < length cursor.old) }
{
    let Token { place, kind } = cursor.take(&[Kind::CloseBrace])?;
    match kind {
        TokenKind::Mark(_) => Ok(place),
        _ => unreachable!(),
    }
}

/// Takes the word of this kind, which means something.
pub fn read_keyword(cursor: &mut Cursor, kind: Kind) -> Result<Place, Stop>
    requires { IsTrue (has grammar keyword_kinds kind) }
    ensures reads { ReadsKeyword kind cursor.old result cursor.new }
    ensures shorter { OnOk result (length cursor.new < length cursor.old) }
{
    let word = cursor.keyword(&[kind])?;
    Ok(word.place)
}
