//! Readers of literals.
ghost use Rattle.std.specs.Prelude.{◌≡◌, ◌<◌, ◌≤◌, length, IfOk, OnOk, IsTrue, Some};
ghost use Rattle.hilti_grammar.specs.Grammar.{Symbol.Rule, has};
ghost use Rattle.hilti_reader.specs.Modules.{RuleName.LiteralText as a_literal, grammar, maybe, plain_literals, time_words, one_of, seconds as the_seconds, second_kinds};
ghost use Rattle.hilti_reader.specs.Readers.{ReadsTree};
ghost use Rattle.hilti_reader.specs.Spelled.{keyword_tree};
ghost use Rattle.hilti_read_literals.specs.Literals.{literal_tree, literal_spot, seconds_tree, time_part, in_parens_tree, time_tree, word_part, maybe_seconds};
ghost use Rattle.hilti_module.specs.declared.module.Simple.TheVariants as simples;
ghost use Rattle.hilti_read_literals.specs.Literals.{values, truths, is_one_token};

use hilti_kinds::Kind;
use hilti_lexer::{Token, TokenKind};
use hilti_module::{Literal, Number, Seconds};
use hilti_reader::{Cursor, Keyword, Stop, read_name};

/// Literals of one token that is no word.
pub const VALUES: [Kind; 6] = [
    Kind::Number,
    Kind::Address,
    Kind::NetNumber,
    Kind::PortNumber,
    Kind::Text,
    Kind::BytesText,
];

/// Literals of one word.
const TRUTHS: [Kind; 3] = [Kind::True, Kind::False, Kind::Null];

/// Literals of one token.
const PLAIN_LITERALS: [Kind; 9] = [
    Kind::Number,
    Kind::Address,
    Kind::NetNumber,
    Kind::PortNumber,
    Kind::Text,
    Kind::BytesText,
    Kind::True,
    Kind::False,
    Kind::Null,
];

/// Words that begin times and intervals.
pub const TIME_WORDS: [Kind; 2] = [Kind::Time, Kind::Interval];

/// Reads the literal of a global.
pub fn read_literal(cursor: &mut Cursor) -> Result<Literal, Stop>
    ensures reads { ReadsTree (Rule a_literal) literal_tree cursor.old result cursor.new }
    ensures shorter { OnOk result (length cursor.new < length cursor.old) }
{
    if cursor.sees(&PLAIN_LITERALS) {
        let plain = read_plain_literal(cursor)?;
        return Ok(plain);
    }
    if cursor.sees(&TIME_WORDS) {
        let word = cursor.keyword(&TIME_WORDS)?;
        let seconds = read_seconds(cursor)?;
        return Ok(time_literal(word, seconds));
    }
    let name = read_name(cursor)?;
    cursor.skip(Kind::Dot)?;
    let constant = cursor.word()?;
    Ok(Literal::Constant { name, constant })
}

/// Reads a literal of one token.
fn read_plain_literal(cursor: &mut Cursor) -> Result<Literal, Stop>
    ensures reads { ReadsTree (one_of plain_literals) literal_spot cursor.old result cursor.new }
    ensures one { IfOk result (λ literal. IsTrue (is_one_token literal)) }
    ensures shorter { OnOk result (length cursor.new < length cursor.old) }
{
    if cursor.sees(&TRUTHS) {
        let word = cursor.keyword(&TRUTHS)?;
        return Ok(truth(word));
    }
    let value = read_value(cursor)?;
    Ok(value)
}

/// Reads a literal of one token that is no word.
pub fn read_value(cursor: &mut Cursor) -> Result<Literal, Stop>
    ensures reads { ReadsTree (one_of values) literal_spot cursor.old result cursor.new }
    ensures one { IfOk result (λ literal. IsTrue (is_one_token literal)) }
    ensures shorter { OnOk result (length cursor.new < length cursor.old) }
{
    let Token { place, kind } = cursor.take(&VALUES)?;
    match kind {
        TokenKind::Number(value) => Ok(Literal::Number(Number { place, value })),
        TokenKind::Address(bits) => Ok(Literal::Address { place, bits }),
        TokenKind::Net(bits, length) => Ok(Literal::Net {
            place,
            bits,
            length,
        }),
        TokenKind::Port(number, is_udp) => Ok(Literal::Port {
            place,
            number,
            is_udp,
        }),
        TokenKind::Text(bytes) => Ok(Literal::Text { place, bytes }),
        TokenKind::Bytes(bytes) => Ok(Literal::Bytes { place, bytes }),
        _ => unreachable!(),
    }
}

/// The literal of a word.
fn truth(word: Keyword) -> Literal
    requires { IsTrue (has grammar truths word.kind) }
    ensures tree { literal_spot result ≡ keyword_tree word }
    ensures one { IsTrue (is_one_token result) }
{
    let place = word.place;
    match word.kind {
        Kind::True => Literal::True { place },
        Kind::False => Literal::False { place },
        Kind::Null => Literal::Null { place },
        _ => unreachable!(),
    }
}

/// The time or the interval of these seconds.
pub fn time_literal(word: Keyword, seconds: Seconds) -> Literal
    requires { IsTrue (has grammar time_words word.kind) }
    ensures tree { literal_tree result ≡ time_tree word.place word.kind seconds }
    ensures part { time_part (simples.Literal result) ≡ Some (word_part word (Some seconds)) }
{
    let place = word.place;
    match word.kind {
        Kind::Time => Literal::Time { place, seconds },
        Kind::Interval => Literal::Interval { place, seconds },
        _ => unreachable!(),
    }
}

/// Reads the number of a time or an interval in its parentheses.
pub fn read_seconds(cursor: &mut Cursor) -> Result<Seconds, Stop>
    ensures reads { ReadsTree the_seconds in_parens_tree cursor.old result cursor.new }
    ensures shorter { OnOk result (length cursor.new < length cursor.old) }
{
    cursor.skip(Kind::OpenParen)?;
    let seconds = read_seconds_alone(cursor)?;
    cursor.skip(Kind::CloseParen)?;
    Ok(seconds)
}

/// Reads the number of a time or an interval.
fn read_seconds_alone(cursor: &mut Cursor) -> Result<Seconds, Stop>
    ensures reads { ReadsTree (one_of second_kinds) seconds_tree cursor.old result cursor.new }
    ensures shorter { OnOk result (length cursor.new < length cursor.old) }
{
    let Token { place, kind } = cursor.take(&[Kind::Number, Kind::Decimal])?;
    match kind {
        TokenKind::Number(seconds) => Ok(Seconds::Whole { place, seconds }),
        TokenKind::Decimal(seconds, nanoseconds) => Ok(Seconds::Parts {
            place,
            seconds,
            nanoseconds,
        }),
        _ => unreachable!(),
    }
}

/// Reads the number of a time or an interval, if it is there.
pub fn read_maybe_seconds(cursor: &mut Cursor) -> Result<Option<Seconds>, Stop>
    ensures reads { ReadsTree (maybe the_seconds) maybe_seconds cursor.old result cursor.new }
    ensures shorter { OnOk result (length cursor.new ≤ length cursor.old) }
{
    if !cursor.sees(&[Kind::OpenParen]) {
        return Ok(None);
    }
    let seconds = read_seconds(cursor)?;
    Ok(Some(seconds))
}
