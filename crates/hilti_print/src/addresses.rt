ghost use Rattle.std.specs.Prelude.{◌≡◌, ◌+◌, ◌/◌, ◌%◌, ◌^◌, ◌++◌, ◌<◌, ◌≤◌, length, OnOk};
ghost use Rattle.std.specs.Net.Text as text;
ghost use Rattle.std.specs.Net.Text.{groups_text, hex, hex_groups_text};
ghost use Rattle.hilti_print.specs.Addresses.{address_text, groups_of, ipv4_text, net_text, port_text};

use crate::text::{hex_digit, number};
use hilti_addr::{bits_above, is_mapped};
use hilti_base::{Blob, NoMemory};

/// An address of 128 bits: `10.0.0.1` where it is `::ffff:10.0.0.1`, and else as `2001:db8::1`, in groups of lower-case
/// hexadecimal digits without leading zeros, with `::` for the first of the longest runs of two zero groups or more.
#[tactic(auto, unfolding(crate::specs::Addresses::address_text))]
pub fn address(out: &mut Blob, a: u128) -> Result<(), NoMemory>
    ensures { OnOk result (out.new ≡ out.old ++ address_text a) }
{
    if is_mapped(a) {
        dotted(out, a)
    } else {
        shortened(out, &groups(a))
    }
}

/// A net: its address, a slash, and its length, which of an IPv4 net counts from the top of its 32 bits. `len` counts
/// from the 128-bit top.
#[tactic(auto, unfolding(crate::specs::Addresses::net_text))]
pub fn net(out: &mut Blob, addr: u128, len: u8) -> Result<(), NoMemory>
    ensures { OnOk result (out.new ≡ out.old ++ net_text addr len) }
{
    address(out, addr)?;
    out.append(b"/")?;
    let counted = len.saturating_sub(bits_above(addr));
    number(out, u64::from(counted))
}

/// A port: its number, and `/udp` or `/tcp`.
pub fn port(out: &mut Blob, n: u16, is_udp: bool) -> Result<(), NoMemory>
    ensures { OnOk result (out.new ≡ out.old ++ port_text n is_udp) }
{
    number(out, u64::from(n))?;
    out.append(if is_udp { b"/udp" } else { b"/tcp" })
}

/// The last four bytes of an address in decimal, with dots between them.
fn dotted(out: &mut Blob, a: u128) -> Result<(), NoMemory>
    ensures { OnOk result (out.new ≡ out.old ++ ipv4_text a) }
{
    number(out, byte_from(a, 24))?;
    out.append(b".")?;
    number(out, byte_from(a, 16))?;
    out.append(b".")?;
    number(out, byte_from(a, 8))?;
    out.append(b".")?;
    number(out, byte_from(a, 0))
}

/// The byte of an address from a bit on, which is counted from the lowest.
fn byte_from(a: u128, bit: u32) -> u64
    requires { bit < 128 }
    ensures { result ≡ a / 2 ^ bit % 2 ^ 8 }
{
    ((a >> bit) % 0x100) as u64
}

/// The groups of 16 bits of an address.
fn groups(a: u128) -> [u16; 8]
    ensures { result ≡ groups_of a }
{
    [
        group_from(a, 112),
        group_from(a, 96),
        group_from(a, 80),
        group_from(a, 64),
        group_from(a, 48),
        group_from(a, 32),
        group_from(a, 16),
        group_from(a, 0),
    ]
}

/// The group of 16 bits of an address from a bit on, which is counted from the lowest.
fn group_from(a: u128, bit: u32) -> u16
    requires { bit < 128 }
    ensures { result ≡ a / 2 ^ bit % 2 ^ 16 }
{
    ((a >> bit) % 0x1_0000) as u16
}

/// Groups with `::` for the first of the longest runs of two zeros or more.
#[tactic(auto, unfolding(std::specs::Net::Text::hex_groups_text))]
fn shortened(out: &mut Blob, groups: &[u16]) -> Result<(), NoMemory>
    ensures { OnOk result (out.new ≡ out.old ++ hex_groups_text groups.now) }
{
    let (start, len) = longest_zero_run(groups);
    if len < 2 {
        return joined(out, groups);
    }
    joined(out, &groups[..start])?;
    out.append(b"::")?;
    joined(out, &groups[start + len..])
}

/// The start and the length of the longest run of zeros, the first one of that length.
fn longest_zero_run(groups: &[u16]) -> (usize, usize)
    ensures value { result ≡ text.longest_zero_run groups.now }
    ensures within { result.0 + result.1 ≤ length groups.now }
{
    let mut start = groups.len();
    let mut len = 0;
    let mut run = 0;
    for at in (0..groups.len()).rev() {
        run = if groups[at] == 0 { run + 1 } else { 0 };
        if run >= len {
            start = at;
            len = run;
        }
    }
    (start, len)
}

/// Groups with colons between them.
fn joined(out: &mut Blob, groups: &[u16]) -> Result<(), NoMemory>
    ensures { OnOk result (out.new ≡ out.old ++ groups_text groups.now) }
{
    let Some((first, others)) = groups.split_first() else {
        return Ok(());
    };
    group(out, *first)?;
    for other in others {
        out.append(b":")?;
        group(out, *other)?;
    }
    Ok(())
}

/// A group in hexadecimal, without leading zeros.
#[tactic(auto, unfolding(std::specs::Net::Text::hex))]
fn group(out: &mut Blob, n: u16) -> Result<(), NoMemory>
    ensures { OnOk result (out.new ≡ out.old ++ hex n) }
{
    let digits = [
        hex_digit((n / 0x1000) as u8),
        hex_digit((n / 0x100 % 16) as u8),
        hex_digit((n / 0x10 % 16) as u8),
        hex_digit((n % 16) as u8),
    ];
    out.append(&digits[leading_zeros(n)..])
}

/// How many of the four hexadecimal digits of a group are leading zeros, the last digit apart.
fn leading_zeros(n: u16) -> usize
    ensures value { result ≡ text.leading_zero_digits n }
    ensures within { result < 4 }
{
    match n {
        0x1000.. => 0,
        0x100.. => 1,
        0x10.. => 2,
        _ => 3,
    }
}
