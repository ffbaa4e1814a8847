//! The forms of the fields of overlays. Nothing here takes memory.
ghost use Rattle.std.specs.Prelude.{◌≡◌, ◌&&◌, nat_le, cond, Some, None};
ghost use Rattle.hilti_resolve.specs.Forms as forms;

use hilti_module::{Bits, Form};
use hilti_types::ValueType;

/// The most bytes that a form `Bytes(n)` may read.
const MOST_BYTES: u64 = 65_535;

/// The parts of a field's form behind its word: the `n` of `Bytes(n)` and else 0, and its range of bits, the lowest
/// first.
#[derive(Clone, Copy, Debug, PartialEq, Eq)]
pub struct FieldForm {
    pub size: u32,
    pub bits: Option<(u8, u8)>,
}

/// The form of a field without a range of bits, behind another word than `Bytes`.
const WHOLE: FieldForm = FieldForm {
    size: 0,
    bits: None,
};

/// The form of an overlay field of this type; `None` exactly where it breaks the rules of forms.
pub fn field_form(kind: &ValueType, form: &Form) -> Option<FieldForm>
    ensures { result ≡ forms.form_of kind.now form.now }
{
    match form {
        Form::Bytes { place: _, length } => bytes_form(kind, length.value),
        Form::Word { word, bits } => word_form(kind, word.bytes.bytes(), bits),
    }
}

/// The form `Bytes(length)` of a field of this type.
fn bytes_form(kind: &ValueType, length: u64) -> Option<FieldForm>
    ensures { result
        ≡ cond (forms.is_bytes kind.now && nat_le length 65535) (forms.whole length) None }
{
    if matches!(kind, ValueType::Bytes) && length <= MOST_BYTES {
        Some(FieldForm {
            size: length as u32,
            bits: None,
        })
    } else {
        None
    }
}

/// The form that a word says of a field of this type.
fn word_form(kind: &ValueType, word: &[u8], bits: &Option<Bits>) -> Option<FieldForm>
    ensures { result ≡ forms.word_form kind.now word.now (forms.width_of word.now) bits.now }
{
    match width_of(word) {
        Some(width) => number_form(kind, width, bits),
        None => plain_form(kind, word, bits),
    }
}

/// The width of the numbers that a form of numbers reads, in bits; `None` for other words.
fn width_of(word: &[u8]) -> Option<u8>
    ensures { result ≡ forms.width_of word.now }
{
    if word == b"U8".as_slice() {
        Some(8)
    } else if word == b"U16Big".as_slice() {
        Some(16)
    } else if word == b"U32Big".as_slice() {
        Some(32)
    } else if word == b"U64Big".as_slice() {
        Some(64)
    } else if word == b"U16Little".as_slice() {
        Some(16)
    } else if word == b"U32Little".as_slice() {
        Some(32)
    } else if word == b"U64Little".as_slice() {
        Some(64)
    } else {
        None
    }
}

/// The form of a field of this type by a word of numbers of this width.
fn number_form(kind: &ValueType, width: u8, bits: &Option<Bits>) -> Option<FieldForm>
    ensures { result ≡ cond (forms.is_int width kind.now) (forms.bits_in width bits.now) None }
{
    match kind {
        ValueType::Int { bits: others } if *others == width => bits_in(width, bits),
        _ => None,
    }
}

/// The form of numbers of this width, with a range of bits where one is given.
fn bits_in(width: u8, bits: &Option<Bits>) -> Option<FieldForm>
    ensures { result ≡ forms.bits_in width bits.now }
{
    let Some(Bits { low, high }) = bits else {
        return Some(WHOLE);
    };
    if low.value <= high.value && high.value < u64::from(width) {
        Some(FieldForm {
            size: 0,
            bits: Some((low.value as u8, high.value as u8)),
        })
    } else {
        None
    }
}

/// The form of a field of this type by a word of addresses or ports.
fn plain_form(kind: &ValueType, word: &[u8], bits: &Option<Bits>) -> Option<FieldForm>
    ensures { result ≡ forms.word_form kind.now word.now None bits.now }
{
    if is_address_form(word) {
        without_bits(matches!(kind, ValueType::Addr), bits)
    } else {
        without_bits(is_port_form(word) && matches!(kind, ValueType::Port), bits)
    }
}

/// Whether a word is a form of addresses.
fn is_address_form(word: &[u8]) -> bool
    ensures { result ≡ forms.is_address_form word.now }
{
    word == b"IPv4".as_slice() || word == b"IPv6".as_slice()
}

/// Whether a word is a form of ports.
fn is_port_form(word: &[u8]) -> bool
    ensures { result ≡ forms.is_port_form word.now }
{
    word == b"PortTCP".as_slice() || word == b"PortUDP".as_slice()
}

/// The form of a field that takes no range of bits, where `fits` tells whether its type is the form's.
fn without_bits(fits: bool, bits: &Option<Bits>) -> Option<FieldForm>
    ensures { result ≡ forms.without_bits fits bits.now }
{
    if fits && bits.is_none() {
        Some(WHOLE)
    } else {
        None
    }
}
