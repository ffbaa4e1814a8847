//! Readers of operands.
ghost use Rattle.std.specs.Prelude.{◌≡◌, ◌<◌, ◌≤◌, [], length, IfOk, OnOk, IsTrue};
ghost use Rattle.hilti_grammar.specs.Grammar.{Symbol.Rule, sees};
ghost use Rattle.hilti_reader.specs.Modules.{RuleName.GroupText as a_group, RuleName.SimpleText as a_simple, RuleName.Operands as operands, grammar, listed};
ghost use Rattle.hilti_reader.specs.Readers.{ReadsTree};
ghost use Rattle.hilti_read_operands.specs.Operands.{operands_tree, first_operands, first_simples, found_group};
ghost use Rattle.hilti_read_operands.specs.Operands.{simples_tree};
ghost use Rattle.std.specs.Prelude.{false};
ghost use Rattle.hilti_read_operands.specs.Operands.{Steps};

use crate::read_simple::{read_other, read_simple, timed};
use hilti_base::Place;
use hilti_kinds::Kind;
use hilti_module::{Operand, Operands, Simples};
use hilti_read_literals::{TIME_WORDS, read_seconds};
use hilti_reader::{Cursor, Stop, read_open_paren};

/// What begins operands other than groups and those that begin with `time` or `interval`.
const OTHERS: [Kind; 35] = [
    Kind::Number,
    Kind::Address,
    Kind::NetNumber,
    Kind::PortNumber,
    Kind::Text,
    Kind::BytesText,
    Kind::True,
    Kind::False,
    Kind::Null,
    Kind::Star,
    Kind::Bool,
    Kind::String,
    Kind::Bytes,
    Kind::Addr,
    Kind::Net,
    Kind::Port,
    Kind::Callable,
    Kind::Timer,
    Kind::TimerMgr,
    Kind::AtSign,
    Kind::Int,
    Kind::Tuple,
    Kind::Iterator,
    Kind::Ref,
    Kind::List,
    Kind::Vector,
    Kind::Set,
    Kind::Map,
    Kind::Classifier,
    Kind::Word,
    Kind::At,
    Kind::Unpack,
    Kind::Priority,
    Kind::Version,
    Kind::BytesForm,
];

/// Reads operands up to what begins none.
pub fn read_operands(cursor: &mut Cursor) -> Result<Operands, Stop>
    ensures reads { ReadsTree (Rule operands) (operands_tree false) cursor.old result cursor.new }
    ensures shorter { OnOk result (length cursor.new ≤ length cursor.old) }
{
    let mut operands = Operands::new(cursor.alloc());
    'operands: while begins_operand(cursor) {
        let next = read_operand(cursor)?;
        operands.push(next)?;
    }
    Ok(operands)
}

/// Reads the operand that begins here.
fn read_operand(cursor: &mut Cursor) -> Result<Operand, Stop>
    requires { IsTrue (sees grammar first_operands cursor.now) }
    ensures reads { Steps cursor.old result cursor.new }
    ensures shorter { OnOk result (length cursor.new < length cursor.old) }
{
    if cursor.sees(&[Kind::OpenParen]) {
        let (place, items) = read_group(cursor)?;
        return Ok(Operand::Group { place, items });
    }
    if cursor.sees(&TIME_WORDS) {
        let word = cursor.keyword(&TIME_WORDS)?;
        if !cursor.sees(&[Kind::OpenParen]) {
            return Ok(Operand::Simple(timed(word, None)));
        }
        let seconds = read_seconds(cursor)?;
        return Ok(Operand::Simple(timed(word, Some(seconds))));
    }
    let other = read_other(cursor)?;
    Ok(Operand::Simple(other))
}

/// Reads operands in parentheses, with the place of the `(`.
fn read_group(cursor: &mut Cursor) -> Result<(Place, Simples), Stop>
    ensures reads { ReadsTree (Rule a_group) found_group cursor.old result cursor.new }
    ensures shorter { OnOk result (length cursor.new < length cursor.old) }
{
    let place = read_open_paren(cursor)?;
    if !begins_simple(cursor) {
        cursor.skip(Kind::CloseParen)?;
        let nothing = Simples::new(cursor.alloc());
        return Ok((place, nothing));
    }
    let items = read_simples(cursor)?;
    cursor.skip(Kind::CloseParen)?;
    Ok((place, items))
}

/// Reads one or more operands in parentheses with commas between them.
fn read_simples(cursor: &mut Cursor) -> Result<Simples, Stop>
    ensures reads { ReadsTree (listed (Rule a_simple)) simples_tree cursor.old result cursor.new }
    ensures some { IfOk result (λ items. items ≡ [] → ⊥) }
    ensures shorter { OnOk result (length cursor.new < length cursor.old) }
{
    let mut items = Simples::new(cursor.alloc());
    let first = read_simple(cursor)?;
    items.push(first)?;
    'items: while cursor.sees(&[Kind::Comma]) {
        cursor.skip(Kind::Comma)?;
        let next = read_simple(cursor)?;
        items.push(next)?;
    }
    Ok(items)
}

/// Whether an operand begins here.
fn begins_operand(cursor: &Cursor) -> bool
    ensures { result ≡ sees grammar first_operands cursor.now }
{
    if cursor.sees(&[Kind::OpenParen]) {
        return true;
    }
    begins_simple(cursor)
}

/// Whether an operand without parentheses begins here.
fn begins_simple(cursor: &Cursor) -> bool
    ensures { result ≡ sees grammar first_simples cursor.now }
{
    if cursor.sees(&TIME_WORDS) {
        return true;
    }
    cursor.sees(&OTHERS)
}
