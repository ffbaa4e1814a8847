//! Readers of lines.
ghost use Rattle.std.specs.Prelude.{◌≡◌, ◌<◌, ◌≤◌, false, length, IfOk, OnOk};
ghost use Rattle.hilti_grammar.specs.Grammar.{Symbol.Rule, Symbol.Many};
ghost use Rattle.hilti_reader.specs.Modules.{RuleName.LineText as a_line, RuleName.AfterWord as after_word, handler, label as a_label};
ghost use Rattle.hilti_reader.specs.Readers.{ReadsTree};
ghost use Rattle.hilti_syntax.specs.Items.{handler_tree, is_reserved, line_tree, handlers_tree, label_tree, worded_tree};
ghost use Rattle.hilti_syntax.specs.Parts.{behind_word_of};

use crate::read_instructions::{read_behind_first_word, read_instruction};
use hilti_base::Place;
use hilti_kinds::Kind;
use hilti_module::{Handler, Handlers, Line, Name, Word};
use hilti_reader::{Cursor, Stop, WORDS, read_at_sign, read_keyword, read_name, read_word_of};

/// Reserved words but `local`.
const RESERVED: [Kind; 33] = [
    Kind::Module,
    Kind::Type,
    Kind::Global,
    Kind::Hook,
    Kind::Catch,
    Kind::Void,
    Kind::Struct,
    Kind::Enum,
    Kind::Overlay,
    Kind::Exception,
    Kind::Bool,
    Kind::Int,
    Kind::String,
    Kind::Bytes,
    Kind::Addr,
    Kind::Net,
    Kind::Port,
    Kind::Time,
    Kind::Interval,
    Kind::Callable,
    Kind::Tuple,
    Kind::Iterator,
    Kind::Ref,
    Kind::Timer,
    Kind::TimerMgr,
    Kind::List,
    Kind::Vector,
    Kind::Set,
    Kind::Map,
    Kind::Classifier,
    Kind::True,
    Kind::False,
    Kind::Null,
];

/// Reads a handler.
pub fn read_handler(cursor: &mut Cursor) -> Result<Handler, Stop>
    ensures reads { ReadsTree handler handler_tree cursor.old result cursor.new }
    ensures shorter { OnOk result (length cursor.new < length cursor.old) }
{
    let place = read_keyword(cursor, Kind::Catch)?;
    let exception = read_name(cursor)?;
    cursor.skip(Kind::AtSign)?;
    let target = cursor.word()?;
    let slot = cursor.word()?;
    Ok(Handler {
        place,
        exception,
        target,
        slot,
    })
}

/// Reads any number of handlers.
pub fn read_handlers(cursor: &mut Cursor) -> Result<Handlers, Stop>
    ensures reads { ReadsTree (Many handler) handlers_tree cursor.old result cursor.new }
    ensures shorter { OnOk result (length cursor.new ≤ length cursor.old) }
{
    let mut handlers = Handlers::new(cursor.alloc());
    'handlers: while cursor.sees(&[Kind::Catch]) {
        let next = read_handler(cursor)?;
        handlers.push(next)?;
    }
    Ok(handlers)
}

/// Reads a label with its handlers.
pub fn read_label(cursor: &mut Cursor) -> Result<(Place, Word, Handlers), Stop>
    ensures reads { ReadsTree a_label label_tree cursor.old result cursor.new }
    ensures shorter { OnOk result (length cursor.new < length cursor.old) }
{
    let place = read_at_sign(cursor)?;
    let name = cursor.word()?;
    let handlers = read_handlers(cursor)?;
    cursor.skip(Kind::Colon)?;
    cursor.skip(Kind::LineEnd)?;
    Ok((place, name, handlers))
}

/// Reads a line up to its end.
pub fn read_line(cursor: &mut Cursor) -> Result<Line, Stop>
    ensures reads { ReadsTree (Rule a_line) line_tree cursor.old result cursor.new }
    ensures shorter { OnOk result (length cursor.new < length cursor.old) }
{
    if cursor.sees(&[Kind::AtSign]) {
        let (place, name, handlers) = read_label(cursor)?;
        return Ok(Line::Label {
            place,
            name,
            handlers,
        });
    }
    if cursor.sees(&RESERVED) {
        let reserved = read_word_of(cursor, &RESERVED)?;
        let instruction = read_behind_first_word(cursor, reserved)?;
        return Ok(Line::Instruction {
            target: None,
            mnemonic: instruction.mnemonic,
            operands: instruction.operands,
        });
    }
    let first = read_word_of(cursor, &WORDS)?;
    let line = read_after_word(cursor, first)?;
    Ok(line)
}

/// Reads what stands behind a line's first word, which isn't reserved, and gives the whole line.
fn read_after_word(cursor: &mut Cursor, first: Word) -> Result<Line, Stop>
    requires { is_reserved first ≡ false }
    ensures reads { ReadsTree (Rule after_word) behind_word_of cursor.old result cursor.new }
    ensures line { IfOk result (λ line. line_tree line ≡ worded_tree first (behind_word_of line)) }
    ensures shorter { OnOk result (length cursor.new < length cursor.old) }
{
    if cursor.sees(&[Kind::Scope]) {
        cursor.skip(Kind::Scope)?;
        let second = cursor.word()?;
        cursor.skip(Kind::Equals)?;
        let assigned = read_instruction(cursor)?;
        return Ok(Line::Instruction {
            target: Some(Name {
                first,
                second: Some(second),
            }),
            mnemonic: assigned.mnemonic,
            operands: assigned.operands,
        });
    }
    if cursor.sees(&[Kind::Equals]) {
        cursor.skip(Kind::Equals)?;
        let assigned = read_instruction(cursor)?;
        return Ok(Line::Instruction {
            target: Some(Name {
                first,
                second: None,
            }),
            mnemonic: assigned.mnemonic,
            operands: assigned.operands,
        });
    }
    let plain = read_behind_first_word(cursor, first)?;
    Ok(Line::Instruction {
        target: None,
        mnemonic: plain.mnemonic,
        operands: plain.operands,
    })
}
