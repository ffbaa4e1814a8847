//! Handlers.
ghost use Rattle.std.specs.Prelude.{◌≡◌, IfOk};
ghost use Rattle.std.specs.Option.{option_copied};
ghost use Rattle.hilti_scope.specs.Scopes.{means};
ghost use Rattle.hilti_resolve.specs.Answering.{Makes};
ghost use Rattle.hilti_operands.specs.Answers.{Told};
ghost use Rattle.hilti_operands.specs.Seen.{body_seen};
ghost use Rattle.hilti_operands.specs.Values as values;
ghost use Rattle.hilti_bodies.specs.Blocks.{read_each};
ghost use Rattle.hilti_bodies.specs.Handlers as spec;

use crate::codes::{BAD_KIND, UNKNOWN};
use hilti_base::{NoMemory, Refusal};
use hilti_link::LinkedFunction;
use hilti_module::{Handler as Written, Name, Word};
use hilti_operands::{BodyView, refusal};
use hilti_parts::{Handler, Handlers};
use hilti_scope::Meaning;
use hilti_types::ValueType;
use std::alloc::Global;

/// How many exceptions are built in.
const BUILT_IN: usize = 7;

/// A number of 32 bits. A greater one takes more memory than there is.
fn whole(n: usize) -> Result<u32, NoMemory>
    ensures { Makes result n }
{
    if n <= u32::MAX as usize {
        Ok(n as u32)
    } else {
        Err(NoMemory)
    }
}

/// The code of a name that means nothing, or something else than it has to.
fn name_code(meaning: Meaning) -> u32
    ensures { result ≡ values.name_code meaning }
{
    match meaning {
        Meaning::Nothing => UNKNOWN,
        _ => BAD_KIND,
    }
}

/// The number of an exception, where so many are declared.
fn caught(declared: usize, meaning: Meaning) -> Option<u32>
    ensures { result ≡ spec.caught declared meaning }
{
    match meaning {
        Meaning::Exception { n } => {
            let number = n as usize;
            if number < BUILT_IN || number - BUILT_IN < declared {
                Some(n)
            } else {
                None
            }
        }
        _ => None,
    }
}

/// The exception that a handler catches.
fn read_caught(body: &BodyView<'_>, name: &Name) -> Result<u32, Refusal>
    ensures { result ≡ spec.read_caught (body_seen body.now) name.now }
{
    let meaning = body.scope.meaning(name);
    match caught(body.tables.exceptions.len(), meaning) {
        Some(exception) => Ok(exception),
        None => Err(refusal(name.first.place, name_code(meaning))),
    }
}

/// The block that a label means.
fn read_block_of(body: &BodyView<'_>, label: &Word) -> Result<u32, Refusal>
    ensures { Told result (spec.read_block_of (body_seen body.now) label.now) }
{
    match body.labels.place(label.bytes.bytes()) {
        Some(block) => Ok(whole(block)?),
        None => Err(refusal(label.place, UNKNOWN)),
    }
}

fn is_text(kind: Option<&ValueType>) -> bool
    ensures { result ≡ spec.is_text (option_copied kind.entry) }
{
    match kind {
        Some(ValueType::Text) => true,
        _ => false,
    }
}

/// Whether a slot is a local of type string, and no parameter.
fn is_text_local(function: &LinkedFunction, slot: usize) -> bool
    ensures { result ≡ spec.is_text_local function.now slot }
{
    function.parameters <= slot && is_text(function.slots.get(slot))
}

/// The slot of a local of type string.
fn text_slot(function: &LinkedFunction, meaning: Meaning) -> Option<usize>
    ensures { result ≡ spec.text_slot function.now meaning }
{
    match meaning {
        Meaning::Local { slot } => {
            if is_text_local(function, slot) {
                Some(slot)
            } else {
                None
            }
        }
        _ => None,
    }
}

/// A name of one word.
fn plain(word: &Word) -> Result<Name, NoMemory>
    ensures { Makes result (spec.plain word.now) }
{
    let bytes = word.bytes.copy()?;
    Ok(Name {
        first: Word {
            place: word.place,
            bytes,
        },
        second: None,
    })
}

/// The slot that the text of what is caught is put in.
fn read_slot(body: &BodyView<'_>, word: &Word) -> Result<u32, Refusal>
    ensures { Told result (spec.read_slot (body_seen body.now) word.now) }
{
    let name = plain(word)?;
    let meaning = body.scope.meaning(&name);
    match text_slot(body.function, meaning) {
        Some(slot) => Ok(whole(slot)?),
        None => Err(refusal(word.place, name_code(meaning))),
    }
}

/// A handler: its exception is looked at first, then its block, then its slot.
#[tactic(auto, using(hilti_operands::proofs::Telling::first_told))]
fn read_handler(body: &BodyView<'_>, handler: &Written) -> Result<Handler, Refusal>
    ensures { Told result (spec.read_handler (body_seen body.now) handler.now) }
{
    let exception = read_caught(body, &handler.exception)?;
    let block = read_block_of(body, &handler.target)?;
    let slot = read_slot(body, &handler.slot)?;
    Ok(Handler {
        exception,
        block,
        slot,
    })
}

/// Handlers, from left to right.
pub fn read_handlers(
    alloc: Global,
    body: &BodyView<'_>,
    handlers: &[Written],
) -> Result<Handlers, Refusal>
    ensures { Told result (read_each (spec.read_handler (body_seen body.now)) handlers.now) }
{
    let mut read = Handlers::new(alloc);
    for handler in handlers {
        match read_handler(body, handler) {
            Ok(handler) => read.push(handler)?,
            Err(refusal) => return Err(refusal),
        }
    }
    Ok(read)
}
