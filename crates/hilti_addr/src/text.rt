ghost use Rattle.std.specs.Prelude.{◌≡◌, ◌≢◌, ℕ, ◌≤◌, Bool, List, IfSome, IsNone};
ghost use Rattle.hilti_addr.specs.declared.net.Net.{Net};
ghost use Rattle.hilti_addr.specs.declared.port.Port.{Port};
ghost use Rattle.hilti_addr.specs.Texts.{IsAddress, IsDottedAddress, IsDottedNet, IsNet, IsPart, IsPort, protocol};

use crate::brackets::{read_bracket_addr, read_bracket_net};
use crate::net::{Net, make_net, v4};
use crate::port::Port;
use hilti_base::{read_number, split_at_byte};

/// The address of four decimal numbers joined by points, or of groups between brackets. `None` exactly for any other
/// text.
pub fn read_addr(text: &[u8]) -> Option<u128>
    ensures some { IfSome result (λ address. IsAddress text.now address) }
    ensures none { IsNone result → (address : ℕ) → ¬ (IsAddress text.now address) }
{
    if let Some(address) = read_dotted_addr(text) {
        return Some(address);
    }
    read_bracket_addr(text)
}

/// The net of such an address, a slash, and how many bits are kept: up to 32 of a dotted address, up to 128 of one
/// between brackets. `None` exactly for any other text.
pub fn read_net(text: &[u8]) -> Option<Net>
    ensures some { IfSome result (λ net. IsNet text.now net) }
    ensures none { IsNone result → (net : Net) → ¬ (IsNet text.now net) }
{
    if let Some(net) = read_dotted_net(text) {
        return Some(net);
    }
    read_bracket_net(text)
}

/// The address of four decimal numbers up to 255 without leading zeros, joined by points. `None` exactly for any other
/// text.
pub fn read_dotted_addr(text: &[u8]) -> Option<u128>
    ensures some { IfSome result (λ address. IsDottedAddress text.now address) }
    ensures none { IsNone result → (address : ℕ) → ¬ (IsDottedAddress text.now address) }
{
    let (first, rest) = read_part(text)?;
    let (second, rest) = read_part(rest)?;
    let (third, rest) = read_part(rest)?;
    let fourth = read_number(rest, 255)?;
    let number = first * 0x100_0000 + second * 0x1_0000 + third * 0x100 + fourth;
    Some(v4(number as u32))
}

/// The net of an address, a slash, and a decimal number up to 32 without a leading zero; the bits past so many are
/// cleared. `None` exactly for any other text.
pub fn read_dotted_net(text: &[u8]) -> Option<Net>
    ensures some { IfSome result (λ net. IsDottedNet text.now net) }
    ensures none { IsNone result → (net : Net) → ¬ (IsDottedNet text.now net) }
{
    let (front, back) = split_at_byte(text, b'/')?;
    let address = read_dotted_addr(front)?;
    let len = read_number(back, 32)?;
    make_net(address, len as u8)
}

/// The port of a decimal number up to 65,535 without a leading zero, followed by `/tcp` or `/udp`. `None` exactly for
/// any other text.
pub fn read_port(text: &[u8]) -> Option<Port>
    ensures some { IfSome result (λ port. IsPort text.now port) }
    ensures none { IsNone result → (port : Port) → ¬ (IsPort text.now port) }
{
    let (front, back) = split_at_byte(text, b'/')?;
    let number = read_number(front, 65_535)?;
    let udp = read_protocol(back)?;
    Some(Port {
        number: number as u16,
        udp,
    })
}

/// A number up to 255 before the first point, and what stands behind the point.
fn read_part(text: &[u8]) -> Option<(u64, &[u8])>
    ensures some { IfSome result (λ part. IsPart text.now part.0 part.1.now) }
    ensures small { IfSome result (λ part. part.0 ≤ 255) }
    ensures none { IsNone result → (n : ℕ) (rest : List ℕ) → ¬ (IsPart text.now n rest) }
{
    let (front, back) = split_at_byte(text, b'.')?;
    let number = read_number(front, 255)?;
    Some((number, back))
}

/// Whether the word is `udp`, where it is `udp` or `tcp`.
fn read_protocol(word: &[u8]) -> Option<bool>
    ensures some { IfSome result (λ udp. word.now ≡ protocol udp) }
    ensures none { IsNone result → (udp : Bool) → word.now ≢ protocol udp }
{
    if word == b"udp".as_slice() {
        Some(true)
    } else if word == b"tcp".as_slice() {
        Some(false)
    } else {
        None
    }
}
