//! Readers of instructions.
ghost use Rattle.std.specs.Prelude.{◌≡◌, ◌<◌, ◌≤◌, length, IfOk, OnOk};
ghost use Rattle.hilti_grammar.specs.Grammar.{Symbol.Rule, Symbol.◌▹◌};
ghost use Rattle.hilti_reader.specs.Modules.{RuleName.InstructionText as an_instruction, any_words, maybe, behind_first, second_word, one_of};
ghost use Rattle.hilti_reader.specs.Readers.{ReadsTree};
ghost use Rattle.hilti_reader.specs.Spelled.{word_tree, maybe_word};
ghost use Rattle.hilti_kinds.specs.declared.kind.Kind.TheVariants as kinds;
ghost use Rattle.hilti_syntax.specs.Parts.{whole_tree, rest_tree};

use hilti_kinds::Kind;
use hilti_lexer::{Token, TokenKind};
use hilti_module::{Mnemonic, Operands, Word};
use hilti_read_operands::read_operands;
use hilti_reader::{Cursor, Stop};

/// Any words, reserved ones too.
const ANY_WORDS: [Kind; 40] = [
    Kind::Word,
    Kind::At,
    Kind::Unpack,
    Kind::Priority,
    Kind::Version,
    Kind::BytesForm,
    Kind::Local,
    Kind::Module,
    Kind::Type,
    Kind::Global,
    Kind::Hook,
    Kind::Catch,
    Kind::Void,
    Kind::Struct,
    Kind::Enum,
    Kind::Overlay,
    Kind::Exception,
    Kind::Bool,
    Kind::Int,
    Kind::String,
    Kind::Bytes,
    Kind::Addr,
    Kind::Net,
    Kind::Port,
    Kind::Time,
    Kind::Interval,
    Kind::Callable,
    Kind::Tuple,
    Kind::Iterator,
    Kind::Ref,
    Kind::Timer,
    Kind::TimerMgr,
    Kind::List,
    Kind::Vector,
    Kind::Set,
    Kind::Map,
    Kind::Classifier,
    Kind::True,
    Kind::False,
    Kind::Null,
];

/// A mnemonic and its operands.
#[derive(Debug, Drop)]
pub struct Instruction {
    pub mnemonic: Mnemonic,
    pub operands: Operands,
}

/// Reads an instruction up to the end of its line.
pub fn read_instruction(cursor: &mut Cursor) -> Result<Instruction, Stop>
    ensures reads { ReadsTree (Rule an_instruction) whole_tree cursor.old result cursor.new }
    ensures shorter { OnOk result (length cursor.new < length cursor.old) }
{
    let first = read_any_word(cursor)?;
    let instruction = read_behind_first_word(cursor, first)?;
    Ok(instruction)
}

/// Reads what stands behind the first word of an instruction, up to the end of its line.
pub fn read_behind_first_word(cursor: &mut Cursor, first: Word) -> Result<Instruction, Stop>
    ensures reads { ReadsTree behind_first rest_tree cursor.old result cursor.new }
    ensures begins { IfOk result (λ instruction. instruction.mnemonic.first ≡ first) }
    ensures shorter { OnOk result (length cursor.new < length cursor.old) }
{
    let second = read_second_word(cursor)?;
    let operands = read_operands(cursor)?;
    cursor.skip(Kind::LineEnd)?;
    let mnemonic = Mnemonic { first, second };
    Ok(Instruction { mnemonic, operands })
}

/// Reads the second word of a mnemonic, if there is one.
fn read_second_word(cursor: &mut Cursor) -> Result<Option<Word>, Stop>
    ensures reads { ReadsTree (maybe second_word) maybe_word cursor.old result cursor.new }
    ensures shorter { OnOk result (length cursor.new ≤ length cursor.old) }
{
    if !cursor.sees(&[Kind::Dot]) {
        return Ok(None);
    }
    cursor.skip(Kind::Dot)?;
    let found = read_any_word(cursor)?;
    Ok(Some(found))
}

/// Reads any word.
pub fn read_any_word(cursor: &mut Cursor) -> Result<Word, Stop>
    ensures reads { ReadsTree (one_of any_words) word_tree cursor.old result cursor.new }
    ensures shorter { OnOk result (length cursor.new < length cursor.old) }
{
    let Token { place, kind } = cursor.take(&ANY_WORDS)?;
    match kind {
        TokenKind::Word(bytes) => Ok(Word { place, bytes }),
        _ => unreachable!(),
    }
}
