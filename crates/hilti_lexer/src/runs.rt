//! Runs of bytes at the front of a text, and what stands behind them.
ghost use Rattle.std.specs.Prelude.{◌≡◌, ◌≤◌, length, drop};
ghost use Rattle.std.specs.Char as chars;
ghost use Rattle.std.specs.List.{prefix_len};
ghost use Rattle.hilti_lexer.specs.Characters as characters;
ghost use Rattle.hilti_lexer.specs.Readings as readings;
ghost use Rattle.hilti_lexer.specs.Tokens.{behind_run, run};
ghost use Rattle.hilti_lexer.specs.Tokens as tokens;

use crate::characters::{is_blank, is_group_byte, is_numeral_byte, is_word_byte};

/// What stands behind the blanks and the comment at the front of a text.
pub fn behind_gap(text: &[u8]) -> &[u8]
    ensures { result.now ≡ readings.behind_gap text.now }
{
    behind_comment(behind_blanks(text))
}

/// What stands behind the blanks at the front.
fn behind_blanks(text: &[u8]) -> &[u8]
    ensures { result.now ≡ behind_run characters.is_blank text.now }
{
    let blanks = count_blanks(text);
    &text[blanks..]
}

/// How many blanks stand at the front.
fn count_blanks(text: &[u8]) -> usize
    ensures length { result ≡ prefix_len characters.is_blank text.now }
    ensures within { result ≤ length text.now }
{
    for (i, byte) in text.iter().enumerate() {
        if !is_blank(*byte) {
            return i;
        }
    }
    text.len()
}

/// What stands behind the comment at the front, if one stands there.
fn behind_comment(text: &[u8]) -> &[u8]
    ensures { result.now ≡ readings.behind_comment text.now }
{
    if text.first() != Some(&b'#') {
        return text;
    }
    let comment = count_line_bytes(text);
    &text[comment..]
}

/// How many bytes stand before the line's end.
fn count_line_bytes(text: &[u8]) -> usize
    ensures length { result ≡ prefix_len characters.is_within_line text.now }
    ensures within { result ≤ length text.now }
{
    for (i, byte) in text.iter().enumerate() {
        if *byte == b'\n' {
            return i;
        }
    }
    text.len()
}

/// The longest run of letters, digits and `_`, and what stands behind it.
pub fn split_word(text: &[u8]) -> (&[u8], &[u8])
    ensures word { result.0.now ≡ run characters.is_word_byte text.now }
    ensures rest { result.1.now ≡ behind_run characters.is_word_byte text.now }
{
    let bytes = count_word_bytes(text);
    text.split_at(bytes)
}

/// How many letters, digits and `_` stand at the front.
fn count_word_bytes(text: &[u8]) -> usize
    ensures length { result ≡ prefix_len characters.is_word_byte text.now }
    ensures within { result ≤ length text.now }
{
    for (i, byte) in text.iter().enumerate() {
        if !is_word_byte(*byte) {
            return i;
        }
    }
    text.len()
}

/// The longest run of letters, digits, `.` and `/`, and what stands behind it.
pub fn split_numeral(text: &[u8]) -> (&[u8], &[u8])
    ensures numeral { result.0.now ≡ run characters.is_numeral_byte text.now }
    ensures rest { result.1.now ≡ behind_run characters.is_numeral_byte text.now }
{
    let bytes = count_numeral_bytes(text);
    text.split_at(bytes)
}

/// How many letters, digits, `.` and `/` stand at the front.
fn count_numeral_bytes(text: &[u8]) -> usize
    ensures length { result ≡ prefix_len characters.is_numeral_byte text.now }
    ensures within { result ≤ length text.now }
{
    for (i, byte) in text.iter().enumerate() {
        if !is_numeral_byte(*byte) {
            return i;
        }
    }
    text.len()
}

/// The bracket literal that begins with the first byte, and what stands behind it: the longest run of hexadecimal
/// digits and `:`, one byte, and where a `/` follows directly, that and the longest run of digits.
pub fn split_brackets(text: &[u8]) -> (&[u8], &[u8])
    ensures literal { result.0.now ≡ tokens.literal text.now }
    ensures rest { result.1.now ≡ tokens.behind_literal text.now }
{
    let rest = behind_length(behind_byte(behind_groups(behind_byte(text))));
    let bytes = text.len() - rest.len();
    (&text[..bytes], rest)
}

/// What stands behind the first byte.
fn behind_byte(text: &[u8]) -> &[u8]
    ensures { result.now ≡ drop 1 text.now }
{
    match text {
        [_, behind @ ..] => behind,
        [] => text,
    }
}

/// What stands behind the hexadecimal digits and `:` at the front.
fn behind_groups(text: &[u8]) -> &[u8]
    ensures { result.now ≡ behind_run characters.is_group_byte text.now }
{
    let bytes = count_group_bytes(text);
    &text[bytes..]
}

/// How many hexadecimal digits and `:` stand at the front.
fn count_group_bytes(text: &[u8]) -> usize
    ensures length { result ≡ prefix_len characters.is_group_byte text.now }
    ensures within { result ≤ length text.now }
{
    for (i, byte) in text.iter().enumerate() {
        if !is_group_byte(*byte) {
            return i;
        }
    }
    text.len()
}

/// What stands behind the `/` at the front and the digits behind it, if one stands there.
fn behind_length(text: &[u8]) -> &[u8]
    ensures { result.now ≡ tokens.behind_length text.now }
{
    if text.first() != Some(&b'/') {
        return text;
    }
    behind_digits(&text[1..])
}

/// What stands behind the digits at the front.
fn behind_digits(text: &[u8]) -> &[u8]
    ensures { result.now ≡ behind_run chars.is_ascii_digit text.now }
{
    let digits = count_digits(text);
    &text[digits..]
}

/// How many digits stand at the front.
fn count_digits(text: &[u8]) -> usize
    ensures length { result ≡ prefix_len chars.is_ascii_digit text.now }
    ensures within { result ≤ length text.now }
{
    for (i, byte) in text.iter().enumerate() {
        if !byte.is_ascii_digit() {
            return i;
        }
    }
    text.len()
}
