ghost use Rattle.std.specs.Prelude.{ℕ, ◌≤◌, IfSome, IsNone, SomeIff};
ghost use Rattle.std.specs.Str.Parse.{digits_value};
ghost use Rattle.hilti_base.specs.Numerals.{IsNumber, IsShortNumeral, IsSplit, Lacks};

/// The number that digits of a base write, letters in either case. `None` exactly where there is no digit, a byte is
/// no digit of the base, or the number is 2^64 or more.
pub fn read_digits(text: &[u8], base: u32) -> Option<u64>
    requires two { 2 ≤ base }
    requires most { base ≤ 36 }
    ensures { SomeIff result (IsShortNumeral base text.now) (digits_value base text.now) }
{
    if text.first() == Some(&b'+') {
        return None;
    }
    let Ok(digits) = str::from_utf8(text) else {
        return None;
    };
    u64::from_str_radix(digits, base).ok()
}

/// The number of a text that is `0` or has decimal digits without a leading zero, where it is not above the greatest.
/// `None` exactly for any other text.
pub fn read_number(text: &[u8], most: u64) -> Option<u64>
    ensures some { IfSome result (λ n. IsNumber most text.now n) }
    ensures none { IsNone result → (n : ℕ) → ¬ (IsNumber most text.now n) }
{
    if text.len() > 1 && text[0] == b'0' {
        return None;
    }
    let Some(number) = read_digits(text, 10) else {
        return None;
    };
    if number > most {
        return None;
    }
    Some(number)
}

/// The text before the first of a byte, and behind it; `None` exactly where the byte stands nowhere.
pub fn split_at_byte(text: &[u8], byte: u8) -> Option<(&[u8], &[u8])>
    ensures some { IfSome result (λ parts. IsSplit byte text.now parts.0.now parts.1.now) }
    ensures none { IsNone result → Lacks byte text.now }
{
    let place = text.iter().position(|c| *c == byte)?;
    Some((&text[..place], &text[place + 1..]))
}
