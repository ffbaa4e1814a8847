//! Addresses of 128 bits as their groups, between brackets.
ghost use Rattle.std.specs.Prelude.{◌≡◌, ℕ, ◌+◌, ◌-◌, ◌*◌, ◌^◌, ◌<◌, ◌≤◌, List, length, IfSome, IsNone, SomeIff};
ghost use Rattle.hilti_addr.specs.Brackets.{AreGroups, IsBracketAddress, IsBracketNet, IsGroup, IsSpelled};
ghost use Rattle.hilti_addr.specs.Groups.{HasColons, HasGroups, IsFirstColons, one_more};
ghost use Rattle.hilti_addr.specs.declared.net.Net.{Net};

use crate::net::{Net, mask};
use hilti_base::{read_digits, read_number, split_at_byte};

/// The most groups of an address.
const MOST_GROUPS: u32 = 8;

/// The most digits of a group.
const MOST_DIGITS: usize = 4;

/// What a group counts for in the one before it.
const BASE: u128 = 0x1_0000;

/// Groups as one number, the highest first, and how many they are.
#[derive(Clone, Copy, Debug, PartialEq, Eq)]
pub struct Groups {
    pub number: u128,
    pub count: u32,
}

/// The address of its groups between brackets: 8 of them joined by `:`, or at most 7 with `::` in place of the others,
/// which are zero. A group is 1 to 4 hexadecimal digits in either case. `None` exactly for any other text.
pub fn read_bracket_addr(text: &[u8]) -> Option<u128>
    ensures some { IfSome result (λ address. IsBracketAddress text.now address) }
    ensures none { IsNone result → (address : ℕ) → ¬ (IsBracketAddress text.now address) }
{
    let (first, behind) = text.split_first()?;
    let (last, inside) = behind.split_last()?;
    if *first == b'[' && *last == b']' {
        read_spelled(inside)
    } else {
        None
    }
}

/// The net of such an address, a slash, and a decimal number up to 128 without a leading zero; the bits past so many
/// from the top are cleared. `None` exactly for any other text.
pub fn read_bracket_net(text: &[u8]) -> Option<Net>
    ensures some { IfSome result (λ net. IsBracketNet text.now net) }
    ensures none { IsNone result → (net : Net) → ¬ (IsBracketNet text.now net) }
{
    let (front, back) = split_at_byte(text, b'/')?;
    let address = read_bracket_addr(front)?;
    let len = read_number(back, 128)?;
    let len = len as u8;
    Some(Net {
        addr: mask(address, len),
        len,
    })
}

/// The address of its groups.
fn read_spelled(text: &[u8]) -> Option<u128>
    ensures some { IfSome result (λ address. IsSpelled text.now address) }
    ensures none { IsNone result → (address : ℕ) → ¬ (IsSpelled text.now address) }
{
    let Some((front, back)) = split_at_colons(text) else {
        return read_whole(text);
    };
    let before = read_groups(front)?;
    let after = read_groups(back)?;
    fill(before, after)
}

/// The address of a text without `::`.
fn read_whole(text: &[u8]) -> Option<u128>
    requires { (place : ℕ) → ¬ (HasColons text.now place) }
    ensures some { IfSome result (λ address. IsSpelled text.now address) }
    ensures none { IsNone result → (address : ℕ) → ¬ (IsSpelled text.now address) }
{
    let groups = read_groups(text)?;
    if groups.count == MOST_GROUPS {
        Some(groups.number)
    } else {
        None
    }
}

/// What stands before the first `::`, and behind it.
fn split_at_colons(text: &[u8]) -> Option<(&[u8], &[u8])>
    ensures some { IfSome result (λ parts. IsFirstColons text.now parts.0.now parts.1.now) }
    ensures none { IsNone result → (place : ℕ) → ¬ (HasColons text.now place) }
{
    for i in 1..text.len() {
        if text[i - 1] == b':' && text[i] == b':' {
            return Some((&text[..i - 1], &text[i + 1..]));
        }
    }
    None
}

/// The groups of a text, where they are at most 8.
fn read_groups(text: &[u8]) -> Option<Groups>
    ensures some { IfSome result (λ groups. HasGroups text.now groups) }
    ensures none { IsNone result → (list : List ℕ) → AreGroups text.now list → 8 < length list }
{
    let mut groups = Groups {
        number: 0,
        count: 0,
    };
    if text.is_empty() {
        return Some(groups);
    }
    let mut rest = text;
    while let Some((front, back)) = split_at_byte(rest, b':') {
        let group = read_group(front)?;
        groups = groups.with(group)?;
        rest = back;
    }
    let group = read_group(rest)?;
    groups.with(group)
}

/// The number of 1 to 4 hexadecimal digits.
fn read_group(text: &[u8]) -> Option<u16>
    ensures some { IfSome result (λ n. IsGroup text.now n) }
    ensures none { IsNone result → (n : ℕ) → ¬ (IsGroup text.now n) }
{
    if text.len() > MOST_DIGITS {
        return None;
    }
    let number = read_digits(text, 16)?;
    Some(number as u16)
}

/// The address of the groups before a `::` and after it. `None` exactly where they are more than 7.
fn fill(before: Groups, after: Groups) -> Option<u128>
    requires before { before.number < 65536 ^ before.count }
    requires after { after.number < 65536 ^ after.count }
    requires few { before.count + after.count ≤ 16 }
    ensures { SomeIff result (before.count + after.count ≤ 7)
        (before.number * 65536 ^ (8 - before.count) + after.number) }
{
    if before.count + after.count >= MOST_GROUPS {
        return None;
    }
    Some(before.as_first() + after.number)
}

impl Groups {
    /// With a group behind them; `None` exactly where they are 8 before.
    fn with(self, group: u16) -> Option<Groups>
        requires { self.count < 8 → self.number < 2 ^ 112 }
        ensures { SomeIff result (self.count < 8) (one_more self group) }
    {
        if self.count >= MOST_GROUPS {
            return None;
        }
        Some(Groups {
            number: self.number * BASE + u128::from(group),
            count: self.count + 1,
        })
    }

    /// The address that begins with the groups, and has zeros behind them.
    fn as_first(self) -> u128
        requires small { self.number < 65536 ^ self.count }
        requires few { self.count ≤ 8 }
        ensures { result ≡ self.number * 65536 ^ (8 - self.count) }
    {
        if self.count == 0 {
            return 0;
        }
        self.number * BASE.pow(MOST_GROUPS - self.count)
    }
}
