//! Readers of operands without parentheses.
ghost use Rattle.std.specs.Prelude.{◌≡◌, ◌<◌, length, IfOk, OnOk, IsTrue, Some, None};
ghost use Rattle.hilti_grammar.specs.Grammar.{Symbol.Rule, has};
ghost use Rattle.hilti_reader.specs.Modules.{RuleName.SimpleText as a_simple, RuleName.OtherSimple as another, grammar, plain_operands, time_words, one_of};
ghost use Rattle.hilti_reader.specs.Readers.{ReadsTree};
ghost use Rattle.hilti_reader.specs.Spelled.{keyword_tree};
ghost use Rattle.hilti_read_operands.specs.Operands.{other_tree, simple_tree, named_tree};
ghost use Rattle.hilti_read_literals.specs.Literals.{time_part, word_part};
ghost use Rattle.hilti_read_operands.specs.Operands.{word_operands, plain_spot, IsOneToken};

use hilti_kinds::Kind;
use hilti_module::{Literal, Name, PlainType, Seconds, Simple, Word};
use hilti_read_literals::{TIME_WORDS, VALUES, read_maybe_seconds, read_value, time_literal};
use hilti_read_types::{CONTAINERS, PARAMETRIC, read_container, read_parametric};
use hilti_reader::{Cursor, Keyword, Stop, read_at_sign, read_behind, read_name, read_star};

/// Operands of one word.
const WORD_OPERANDS: [Kind; 12] = [
    Kind::True,
    Kind::False,
    Kind::Null,
    Kind::Bool,
    Kind::String,
    Kind::Bytes,
    Kind::Addr,
    Kind::Net,
    Kind::Port,
    Kind::Callable,
    Kind::Timer,
    Kind::TimerMgr,
];

/// Operands of one token, but for `time` and `interval`.
const PLAIN_OPERANDS: [Kind; 19] = [
    Kind::Number,
    Kind::Address,
    Kind::NetNumber,
    Kind::PortNumber,
    Kind::Text,
    Kind::BytesText,
    Kind::True,
    Kind::False,
    Kind::Null,
    Kind::Star,
    Kind::Bool,
    Kind::String,
    Kind::Bytes,
    Kind::Addr,
    Kind::Net,
    Kind::Port,
    Kind::Callable,
    Kind::Timer,
    Kind::TimerMgr,
];

/// Reads an operand in parentheses.
pub fn read_simple(cursor: &mut Cursor) -> Result<Simple, Stop>
    ensures reads { ReadsTree (Rule a_simple) simple_tree cursor.old result cursor.new }
    ensures shorter { OnOk result (length cursor.new < length cursor.old) }
{
    if cursor.sees(&TIME_WORDS) {
        let word = cursor.keyword(&TIME_WORDS)?;
        let seconds = read_maybe_seconds(cursor)?;
        return Ok(timed(word, seconds));
    }
    let other = read_other(cursor)?;
    Ok(other)
}

/// Reads an operand that doesn't begin with `time` or `interval`.
pub fn read_other(cursor: &mut Cursor) -> Result<Simple, Stop>
    ensures reads { ReadsTree (Rule another) other_tree cursor.old result cursor.new }
    ensures other { IfOk result (λ simple. time_part simple ≡ None) }
    ensures shorter { OnOk result (length cursor.new < length cursor.old) }
{
    if cursor.sees(&PLAIN_OPERANDS) {
        let plain = read_plain_operand(cursor)?;
        return Ok(plain);
    }
    if cursor.sees(&[Kind::AtSign]) {
        let place = read_at_sign(cursor)?;
        let label = cursor.word()?;
        return Ok(Simple::Label { place, name: label });
    }
    if cursor.sees(&PARAMETRIC) {
        let parametric = read_parametric(cursor)?;
        return Ok(Simple::Parametric(parametric));
    }
    if cursor.sees(&CONTAINERS) {
        let container = read_container(cursor)?;
        return Ok(Simple::Container(container));
    }
    let name = read_name(cursor)?;
    let constant = read_behind(cursor, Kind::Dot)?;
    Ok(named(name, constant))
}

/// Reads an operand of one token.
fn read_plain_operand(cursor: &mut Cursor) -> Result<Simple, Stop>
    ensures reads { ReadsTree (one_of plain_operands) plain_spot cursor.old result cursor.new }
    ensures one { IfOk result IsOneToken }
    ensures shorter { OnOk result (length cursor.new < length cursor.old) }
{
    if cursor.sees(&VALUES) {
        let value = read_value(cursor)?;
        return Ok(Simple::Literal(value));
    }
    if cursor.sees(&[Kind::Star]) {
        let place = read_star(cursor)?;
        return Ok(Simple::Any { place });
    }
    let word = cursor.keyword(&WORD_OPERANDS)?;
    Ok(word_operand(word))
}

/// The operand of a word.
fn word_operand(word: Keyword) -> Simple
    requires { IsTrue (has grammar word_operands word.kind) }
    ensures tree { plain_spot result ≡ keyword_tree word }
    ensures one { IsOneToken result }
{
    let place = word.place;
    match word.kind {
        Kind::True => Simple::Literal(Literal::True { place }),
        Kind::False => Simple::Literal(Literal::False { place }),
        Kind::Null => Simple::Literal(Literal::Null { place }),
        Kind::Timer => Simple::Timer { place },
        Kind::TimerMgr => Simple::Manager { place },
        Kind::Bool => Simple::Plain {
            place,
            plain: PlainType::Bool,
        },
        Kind::String => Simple::Plain {
            place,
            plain: PlainType::Text,
        },
        Kind::Bytes => Simple::Plain {
            place,
            plain: PlainType::Bytes,
        },
        Kind::Addr => Simple::Plain {
            place,
            plain: PlainType::Addr,
        },
        Kind::Net => Simple::Plain {
            place,
            plain: PlainType::Net,
        },
        Kind::Port => Simple::Plain {
            place,
            plain: PlainType::Port,
        },
        Kind::Callable => Simple::Plain {
            place,
            plain: PlainType::Callable,
        },
        _ => unreachable!(),
    }
}

/// The operand that `time` or `interval` begins, with its number where it is a literal.
pub fn timed(word: Keyword, seconds: Option<Seconds>) -> Simple
    requires { IsTrue (has grammar time_words word.kind) }
    ensures { time_part result ≡ Some (word_part word seconds) }
{
    if let Some(seconds) = seconds {
        return Simple::Literal(time_literal(word, seconds));
    }
    let place = word.place;
    match word.kind {
        Kind::Time => Simple::Plain {
            place,
            plain: PlainType::Time,
        },
        Kind::Interval => Simple::Plain {
            place,
            plain: PlainType::Interval,
        },
        _ => unreachable!(),
    }
}

/// A name, or a constant of the type of that name.
fn named(name: Name, constant: Option<Word>) -> Simple
    ensures tree { other_tree result ≡ named_tree name constant }
    ensures other { time_part result ≡ None }
{
    match constant {
        Some(constant) => Simple::Literal(Literal::Constant { name, constant }),
        None => Simple::Name(name),
    }
}
