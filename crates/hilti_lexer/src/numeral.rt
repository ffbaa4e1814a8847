//! The values of numerals and of bracket literals.
ghost use Rattle.std.specs.Prelude.{◌≡◌, ℕ, IfSome, IsNone, IsTrue, ◌↔◌};
ghost use Rattle.std.specs.Char.{is_ascii_digit};
ghost use Rattle.std.specs.List.{list_all};
ghost use Rattle.hilti_lexer.specs.declared.token.TokenKind.{TokenKind};
ghost use Rattle.hilti_lexer.specs.Numerals.{IsBracketOf, IsHex, IsNumeralOf, IsTooBig};

use crate::token::TokenKind;
use hilti_addr::{
    Net, read_bracket_addr, read_bracket_net, read_dotted_addr, read_dotted_net, read_port,
};
use hilti_base::{read_digits, read_number};
use hilti_clock::split_decimal;

/// The most hexadecimal digits of a number.
const MOST_HEX_DIGITS: usize = 16;

/// The token of a run of letters, digits, `.` and `/`; `None` exactly where it has none of the forms of numerals.
pub fn read_numeral(text: &[u8]) -> Option<TokenKind>
    ensures some { IfSome result (λ kind. IsNumeralOf text.now kind) }
    ensures none { IsNone result → (kind : TokenKind) → ¬ (IsNumeralOf text.now kind) }
{
    if let Some(number) = read_number(text, u64::MAX) {
        return Some(TokenKind::Number(number));
    }
    if let Some(number) = read_hex(text) {
        return Some(TokenKind::Number(number));
    }
    if let Some((seconds, nanos)) = split_decimal(text) {
        return Some(TokenKind::Decimal(seconds, nanos));
    }
    if let Some(address) = read_dotted_addr(text) {
        return Some(TokenKind::Address(address));
    }
    if let Some(net) = read_dotted_net(text) {
        return Some(TokenKind::Net(net.addr, net.len));
    }
    let port = read_port(text)?;
    Some(TokenKind::Port(port.number, port.udp))
}

/// The token of a bracket literal; `None` exactly where it is neither an address nor a net.
pub fn read_brackets(text: &[u8]) -> Option<TokenKind>
    ensures some { IfSome result (λ kind. IsBracketOf text.now kind) }
    ensures none { IsNone result → (kind : TokenKind) → ¬ (IsBracketOf text.now kind) }
{
    if let Some(address) = read_bracket_addr(text) {
        return Some(TokenKind::Address(address));
    }
    let Net { addr, len } = read_bracket_net(text)?;
    Some(TokenKind::Net(addr, len))
}

/// Whether a text is digits without a leading zero, of a number above 2^64 - 1.
pub fn is_too_big(text: &[u8]) -> bool
    ensures { IsTrue result ↔ IsTooBig text.now }
{
    if text.is_empty() {
        return false;
    }
    if text[0] == b'0' || !is_digits(text) {
        return false;
    }
    read_number(text, u64::MAX).is_none()
}

/// Whether all bytes are decimal digits.
fn is_digits(text: &[u8]) -> bool
    ensures { result ≡ list_all is_ascii_digit text.now }
{
    text.iter().all(|byte| byte.is_ascii_digit())
}

/// The number of `0x` and 1 to 16 hexadecimal digits.
fn read_hex(text: &[u8]) -> Option<u64>
    ensures some { IfSome result (λ n. IsHex text.now n) }
    ensures none { IsNone result → (n : ℕ) → ¬ (IsHex text.now n) }
{
    let digits = text.strip_prefix(b"0x")?;
    if digits.len() > MOST_HEX_DIGITS {
        return None;
    }
    let number = read_digits(digits, 16)?;
    Some(number)
}
