//! Written names.
ghost use Rattle.std.specs.Prelude.{◌≡◌, ◌+◌, nat_lt, ok_or};
ghost use Rattle.std.specs.Option.{option_copied};
ghost use Rattle.hilti_base.specs.declared.refusal.Refusal.TheVariants.{At};
ghost use Rattle.hilti_resolve.specs.Answering.{Makes};
ghost use Rattle.hilti_resolve.specs.Containers.{container_start, container_refusal};
ghost use Rattle.hilti_resolve.specs.Values.{container_value_of};
ghost use Rattle.hilti_scope.specs.Scopes.{means};
ghost use Rattle.hilti_operands.specs.Answers.{Told};
ghost use Rattle.hilti_operands.specs.Names as spec;
ghost use Rattle.hilti_operands.specs.Seen.{body_seen, known_of};

use crate::codes::{BAD_KIND, LITERAL_RANGE, UNKNOWN, refusal};
use crate::known::{Known, known_fields, known_members, known_parts, known_type};
use crate::start::wrong;
use crate::values::whole;
use crate::view::BodyView;
use hilti_base::{FnId, NoMemory, Place, Refusal};
use hilti_link::LinkedFunction;
use hilti_module::{Container, Literal, Number, Simple, Word};
use hilti_parts::Operand;
use hilti_resolve::read_container;
use hilti_row_types::overlay_fields;
use hilti_scope::Meaning;
use hilti_table::Callee;
use hilti_tree::Tree;
use hilti_types::{Inner, Member, OverlayField, ValueType};
use std::alloc::Global;

/// Whether a function without a result, or any, is asked.
fn may_be(which: Callee, function: &LinkedFunction) -> bool
    ensures { result ≡ spec.may_be which function.now.result }
{
    match which {
        Callee::Any => true,
        Callee::Void => function.result.is_none(),
    }
}

/// Whether a function may be named: no name means a hook body.
fn may_be_named(which: Callee, function: &LinkedFunction) -> bool
    ensures { result ≡ spec.may_be_named which function.now }
{
    function.hook.is_none() && may_be(which, function)
}

/// The function at a place of those that modules declare.
fn function_at(which: Callee, n: u32, function: Option<&LinkedFunction>) -> Option<Operand>
    ensures { result ≡ spec.function_at which n (option_copied function.entry) }
{
    match function {
        Some(function) => {
            if may_be_named(which, function) {
                Some(Operand::Function { f: FnId { n } })
            } else {
                None
            }
        }
        None => None,
    }
}

/// A function, which may have to be void.
pub fn function_meant(body: &BodyView<'_>, which: Callee, meaning: Meaning) -> Option<Operand>
    ensures { result ≡ spec.function_meant (body_seen body.now) which meaning }
{
    match meaning {
        Meaning::Function { n } => { function_at(which, n, body.tables.functions.get(n as usize)) }
        _ => None,
    }
}

/// A hook.
pub fn hook_meant(body: &BodyView<'_>, meaning: Meaning) -> Option<Operand>
    ensures { result ≡ spec.hook_meant (body_seen body.now) meaning }
{
    match meaning {
        Meaning::Hook { n } => match body.tables.hooks.get(n as usize) {
            Some(_) => Some(Operand::Hook { n }),
            None => None,
        },
        _ => None,
    }
}

/// How many exceptions are built in.
const BUILT_IN: usize = 7;

/// An exception.
pub fn exception_meant(body: &BodyView<'_>, meaning: Meaning) -> Option<Operand>
    ensures { result ≡ spec.exception_meant (body_seen body.now) meaning }
{
    match meaning {
        Meaning::Exception { n } => {
            if is_exception(n as usize, body.tables.exceptions.len()) {
                Some(Operand::Exception { n })
            } else {
                None
            }
        }
        _ => None,
    }
}

/// Whether a number is that of a built-in exception or one of so many declared ones.
fn is_exception(n: usize, declared: usize) -> bool
    ensures { result ≡ nat_lt n (7 + declared) }
{
    n < BUILT_IN || n - BUILT_IN < declared
}

/// An overlay.
pub fn overlay_meant(body: &BodyView<'_>, meaning: Meaning) -> Option<Operand>
    ensures { result ≡ spec.overlay_meant (body_seen body.now) meaning }
{
    match meaning {
        Meaning::Overlay { n } => match overlay_fields(&body.tables.types, n) {
            Some(_) => Some(Operand::Overlay { n }),
            None => None,
        },
        _ => None,
    }
}

/// The type of a struct, of which an object can be made.
fn struct_meant(meaning: Meaning) -> Option<Operand>
    ensures { result ≡ spec.struct_meant meaning }
{
    match meaning {
        Meaning::Struct { n } => Some(Operand::New {
            what: Inner::Struct { n },
        }),
        _ => None,
    }
}

/// What a name means, and nothing where the operand is no name.
pub fn meaning_of(body: &BodyView<'_>, simple: &Simple) -> Meaning
    ensures { result ≡ spec.meaning_of (body_seen body.now) simple.now }
{
    match simple {
        Simple::Name(name) => body.scope.meaning(name),
        _ => Meaning::Nothing,
    }
}

/// An operand that names something of a kind.
pub fn read_named(
    body: &BodyView<'_>,
    meant: Option<Operand>,
    simple: &Simple,
) -> Result<Operand, Refusal>
    ensures { result ≡ spec.named (body_seen body.now) meant simple.now }
{
    match meant {
        Some(operand) => Ok(operand),
        None => Err(wrong(body, simple)),
    }
}

/// The type of an object that can be made: a struct, a container or a timer manager.
pub fn read_new(alloc: Global, body: &BodyView<'_>, simple: &Simple) -> Result<Operand, Refusal>
    ensures { Told result (spec.read_new (body_seen body.now) simple.now) }
{
    match simple {
        Simple::Container(container) => read_made(alloc, body, container),
        Simple::Manager { .. } => Ok(Operand::New {
            what: Inner::Manager,
        }),
        _ => read_named(body, struct_meant(meaning_of(body, simple)), simple),
    }
}

/// The type of a container that is to be made.
fn read_made(alloc: Global, body: &BodyView<'_>, container: &Container) -> Result<Operand, Refusal>
    ensures { Told result (spec.container_made (container_start container.now)
        (container_refusal body.now.tables.now.types (means body.now.scope.now) container.now)
        (container_value_of body.now.tables.now.types (means body.now.scope.now) container.now)) }
{
    match read_container(alloc, body.scope, &body.tables.types, container) {
        Ok(what) => Ok(Operand::New { what }),
        Err(Refusal::At { place, code }) => Err(refusal(place, code)),
        Err(Refusal::NoMemory) => Err(Refusal::NoMemory),
    }
}

/// The block of a label.
fn block_at(blocks: usize, block: Option<usize>) -> Result<Option<Operand>, NoMemory>
    ensures { Makes result (spec.block_at blocks block) }
{
    match block {
        Some(at) => {
            if at < blocks {
                let n = whole(at)?;
                Ok(Some(Operand::Block { n }))
            } else {
                Ok(None)
            }
        }
        None => Ok(None),
    }
}

/// A label of the body. One that means nothing is refused at its word.
pub fn read_label(body: &BodyView<'_>, simple: &Simple) -> Result<Operand, Refusal>
    ensures { Told result (spec.read_label (body_seen body.now) simple.now) }
{
    match simple {
        Simple::Label { place: _, name } => {
            match block_at(body.blocks, body.labels.place(name.bytes.bytes()))? {
                Some(operand) => Ok(operand),
                None => Err(refusal(name.place, UNKNOWN)),
            }
        }
        _ => Err(wrong(body, simple)),
    }
}

/// The word that an operand of one word is.
fn one_word(simple: &Simple) -> Option<&Word>
    ensures { option_copied result ≡ spec.one_word simple.now }
{
    match simple {
        Simple::Name(name) => match &name.second {
            Some(_) => None,
            None => Some(&name.first),
        },
        _ => None,
    }
}

/// `Create` or `Access`.
fn mode_meant(word: &[u8]) -> Option<Operand>
    ensures { result ≡ spec.mode_meant word.now }
{
    if word == b"Create".as_slice() {
        Some(Operand::Mode { access: false })
    } else if word == b"Access".as_slice() {
        Some(Operand::Mode { access: true })
    } else {
        None
    }
}

/// `Create` or `Access`. Another word is refused with code 30 alone.
pub fn read_mode(body: &BodyView<'_>, simple: &Simple) -> Result<Operand, Refusal>
    ensures { result ≡ spec.read_word (body_seen body.now) spec.mode_meant simple.now }
{
    match one_word(simple) {
        Some(word) => match mode_meant(word.bytes.bytes()) {
            Some(operand) => Ok(operand),
            None => Err(refusal(word.place, BAD_KIND)),
        },
        None => Err(wrong(body, simple)),
    }
}

/// The field at a place. Where there is none, its word is refused with code 30 alone.
fn field_at(place: Place, field: Option<usize>) -> Result<Operand, Refusal>
    ensures { Told result (ok_or (spec.field_at field) (At place 30)) }
{
    match field {
        Some(at) => {
            let n = whole(at)?;
            Ok(Operand::Field { n })
        }
        None => Err(refusal(place, BAD_KIND)),
    }
}

/// The place of the field of a word among those of a struct.
#[tactic(auto, unfolding(crate::specs::Names::member_place))]
fn member_place(fields: &[Member], word: &[u8]) -> Option<usize>
    ensures { result ≡ spec.member_place fields.now word.now }
{
    fields.iter().position(|member| member.name.bytes() == word)
}

/// The place of the field of a word among those of an overlay.
#[tactic(auto, unfolding(crate::specs::Names::field_place))]
fn field_place(fields: &[OverlayField], word: &[u8]) -> Option<usize>
    ensures { result ≡ spec.field_place fields.now word.now }
{
    fields.iter().position(|field| field.name.bytes() == word)
}

/// A field of the known struct. A word that is none is refused with code 30 alone.
pub fn read_field(body: &BodyView<'_>, known: &Known, simple: &Simple) -> Result<Operand, Refusal>
    ensures { Told result (spec.read_field (body_seen body.now)
        (known_of (body_seen body.now) known.now) simple.now) }
{
    match one_word(simple) {
        Some(word) => {
            let field = member_place(known_members(body, known), word.bytes.bytes());
            field_at(word.place, field)
        }
        None => Err(wrong(body, simple)),
    }
}

/// A field of the known overlay. A word that is none is refused with code 30 alone.
pub fn read_overlay_field(
    body: &BodyView<'_>,
    known: &Known,
    simple: &Simple,
) -> Result<Operand, Refusal>
    ensures { Told result (spec.read_overlay_field (body_seen body.now)
        (known_of (body_seen body.now) known.now) simple.now) }
{
    match one_word(simple) {
        Some(word) => {
            let field = field_place(known_fields(body, known), word.bytes.bytes());
            field_at(word.place, field)
        }
        None => Err(wrong(body, simple)),
    }
}

/// A number that is below a count. It is refused with code 36 where it isn't.
fn number_below(number: &Number, count: usize) -> Result<Operand, Refusal>
    ensures { result ≡ spec.number_below number.now count }
{
    if number.value < count as u64 {
        Ok(Operand::Literal {
            kind: ValueType::Int { bits: 64 },
            value: Tree::Int(number.value),
        })
    } else {
        Err(refusal(number.place, LITERAL_RANGE))
    }
}

/// The place of a part of the known tuple, as a number.
pub fn read_index(body: &BodyView<'_>, known: &Known, simple: &Simple) -> Result<Operand, Refusal>
    ensures { result ≡ spec.read_index (body_seen body.now) (known_of (body_seen body.now) known.now)
        simple.now }
{
    match simple {
        Simple::Literal(Literal::Number(number)) => {
            number_below(number, known_parts(known_type(body, known)).len())
        }
        _ => Err(wrong(body, simple)),
    }
}
