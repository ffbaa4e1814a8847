ghost use Rattle.std.specs.Prelude.{◌≡◌, ◌+◌, ◌<◌, ◌≤◌, length, IfErr, IfOk, OnOk};
ghost use Rattle.std.specs.Option.{ForSome};
ghost use Rattle.hilti_overlay.specs.Fields.{Allows, bits_in, end_of, field_value, size_of, value_of};

use crate::field::{Form, PastEnd, Scalar, Unpack};
use byteorder::{BigEndian, ByteOrder, LittleEndian};
use hilti_addr::v4;

/// The value of a field of a piece of bytes, looked for from a place on. `PastEnd` exactly where the field reaches
/// past the end of the piece, also for a field of no bytes.
pub fn get(field: &Unpack, piece: &[u8], from: u64) -> Result<Scalar, PastEnd>
    requires { Allows field.now.form field.now.bits }
    ensures value { IfOk result (λ value. value ≡ field_value field.now piece.now from) }
    ensures within { OnOk result (end_of field.now from ≤ length piece.now) }
    ensures past { IfErr result (λ _. length piece.now < end_of field.now from) }
{
    let Some(start) = from.checked_add(field.offset) else {
        return Err(PastEnd);
    };
    let Some(end) = start.checked_add(field.form.size()) else {
        return Err(PastEnd);
    };
    if end > piece.len() as u64 {
        return Err(PastEnd);
    }
    let bytes = &piece[start as usize..end as usize];
    Ok(unpack(field.form, field.bits, start, bytes))
}

/// The value of the field's own bytes, which stand at a place.
fn unpack(form: Form, bits: Option<(u8, u8)>, start: u64, bytes: &[u8]) -> Scalar
    requires allowed { Allows form bits }
    requires whole { length bytes.now ≡ size_of form }
    ensures { result ≡ value_of form bits start bytes.now }
{
    match form {
        Form::U8 => Scalar::Int(cut(bits, u64::from(bytes[0]))),
        Form::U16Big => Scalar::Int(cut(bits, u64::from(BigEndian::read_u16(bytes)))),
        Form::U32Big => Scalar::Int(cut(bits, u64::from(BigEndian::read_u32(bytes)))),
        Form::U64Big => Scalar::Int(cut(bits, BigEndian::read_u64(bytes))),
        Form::U16Little => Scalar::Int(cut(bits, u64::from(LittleEndian::read_u16(bytes)))),
        Form::U32Little => Scalar::Int(cut(bits, u64::from(LittleEndian::read_u32(bytes)))),
        Form::U64Little => Scalar::Int(cut(bits, LittleEndian::read_u64(bytes))),
        Form::Ipv4 => Scalar::Addr(v4(BigEndian::read_u32(bytes))),
        Form::Ipv6 => Scalar::Addr(BigEndian::read_u128(bytes)),
        Form::PortTcp => Scalar::Port(BigEndian::read_u16(bytes), false),
        Form::PortUdp => Scalar::Port(BigEndian::read_u16(bytes), true),
        Form::Bytes(size) => Scalar::Range {
            start,
            len: u64::from(size),
        },
    }
}

/// The bits of a range, or the whole number where there is none.
fn cut(bits: Option<(u8, u8)>, number: u64) -> u64
    requires { ForSome bits (λ range. (range.0 ≤ range.1) × (range.1 < 64)) }
    ensures { result ≡ bits_in bits number }
{
    match bits {
        None => number,
        Some((low, high)) => (number >> low) & (u64::MAX >> (63 - (high - low))),
    }
}
