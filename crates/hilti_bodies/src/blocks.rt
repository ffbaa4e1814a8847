//! The blocks of a body.
ghost use Rattle.std.specs.Prelude.{◌≡◌, ◌+◌, ◌<◌, length, drop, Some};
ghost use Rattle.hilti_base.specs.declared.names.Place.{Place as APlace};
ghost use Rattle.hilti_scope.specs.Scopes.{means};
ghost use Rattle.hilti_operands.specs.Answers.{Told};
ghost use Rattle.hilti_operands.specs.Seen.{body_seen};
ghost use Rattle.hilti_bodies.specs.Blocks as spec;
ghost use Rattle.hilti_bodies.specs.Sections.{section, sections, unlabelled, labelled};

use crate::codes::DUPLICATE;
use crate::handlers::read_handlers;
use crate::instructions::read_instructions;
use crate::labels::{Labels, begins_with_label};
use hilti_base::{Place, Refusal};
use hilti_link::{LinkedFunction, Tables};
use hilti_module::{Body, Handler, Line, Word};
use hilti_operands::{BodyView, refusal};
use hilti_parts::{Block, Blocks, Handlers};
use hilti_scope::Scope;
use std::alloc::Global;

/// Whether the block of a number is the one that its label means.
fn is_first(body: &BodyView<'_>, number: usize, label: &Word) -> bool
    ensures { result ≡ spec.is_block number ((body_seen body.now).label label.now.bytes) }
{
    match body.labels.place(label.bytes.bytes()) {
        Some(first) => first == number,
        None => false,
    }
}

/// The handlers of the block of a number. A label that is declared again is refused.
fn read_label(
    alloc: Global,
    body: &BodyView<'_>,
    number: usize,
    label: &Word,
    handlers: &[Handler],
) -> Result<Handlers, Refusal>
    ensures { (place : APlace) → Told result (spec.read_label (body_seen body.now) number
        (Some (record { place = place; name = label.now; handlers = handlers.now }))) }
{
    if is_first(body, number, label) {
        read_handlers(alloc, body, handlers)
    } else {
        Err(refusal(label.place, DUPLICATE))
    }
}

/// The block of a number, whose label stands in front of these lines.
fn read_block(
    alloc: Global,
    body: &BodyView<'_>,
    number: usize,
    label: &Word,
    handlers: &[Handler],
    behind: &[Line],
    close: Place,
) -> Result<Block, Refusal>
    ensures { (place : APlace) → Told result (spec.read_block (body_seen body.now) number
        (section (Some (record { place = place; name = label.now; handlers = handlers.now }))
        behind.now close)) }
{
    match read_label(alloc, body, number, label, handlers) {
        Ok(handlers) => match read_instructions(alloc, body, behind, close) {
            Ok(instructions) => Ok(Block {
                handlers,
                instructions,
            }),
            Err(refusal) => Err(refusal),
        },
        Err(refusal) => Err(refusal),
    }
}

/// The block in front of the first label, where there is one.
fn read_unlabelled(
    alloc: Global,
    body: &BodyView<'_>,
    lines: &[Line],
    close: Place,
) -> Result<Blocks, Refusal>
    ensures { Told result (spec.read_blocks (body_seen body.now) 0 (unlabelled lines.now close)) }
{
    let mut blocks = Blocks::new(alloc);
    if begins_with_label(lines) {
        return Ok(blocks);
    }
    match read_instructions(alloc, body, lines, close) {
        Ok(instructions) => {
            blocks.push(Block {
                handlers: Handlers::new(alloc),
                instructions,
            })?;
            Ok(blocks)
        }
        Err(refusal) => Err(refusal),
    }
}

/// The lines behind the one at a place.
fn lines_behind(lines: &[Line], at: usize) -> &[Line]
    requires { at < length lines.now }
    ensures { result.now ≡ drop (at + 1) lines.now }
{
    &lines[at + 1..]
}

/// All blocks of a body.
#[tactic(auto, using(crate::proofs::Following::blocks_stop))]
fn read_all(
    alloc: Global,
    body: &BodyView<'_>,
    lines: &[Line],
    close: Place,
) -> Result<Blocks, Refusal>
    ensures { Told result (spec.read_blocks (body_seen body.now) 0 (sections lines.now close)) }
{
    let mut blocks = read_unlabelled(alloc, body, lines, close)?;
    for at in 0..lines.len() {
        match &lines[at] {
            Line::Label {
                place: _,
                name,
                handlers,
            } => {
                let number = blocks.len();
                let behind = lines_behind(lines, at);
                match read_block(
                    alloc,
                    body,
                    number,
                    name,
                    handlers.as_slice(),
                    behind,
                    close,
                ) {
                    Ok(block) => blocks.push(block)?,
                    Err(refusal) => return Err(refusal),
                }
            }
            Line::Instruction { .. } => {}
        }
    }
    Ok(blocks)
}

/// The blocks of the body of a function or a hook, or its first refusal in textual order. Each line is refused as
/// `read_line` says. A label is refused with code 20 at its name where one in front of it has that name. A handler is
/// refused with code 21 or 30 at the name of its exception, 21 at its label, and 21 or 30 at its slot, which is a local of
/// type string. A block without an ending instruction is refused with code 33 at the label or the brace behind it, and an
/// instruction behind an ending one with code 34 at its mnemonic.
pub fn read_body<'a>(
    alloc: Global,
    scope: &'a Scope<'a>,
    tables: &'a Tables,
    function: &'a LinkedFunction,
    body: &Body,
) -> Result<Blocks, Refusal>
    ensures { Told result (spec.read_body (means scope.now) tables.now function.now body.now) }
{
    let lines = body.lines.as_slice();
    let labels = Labels::of(alloc, lines)?;
    let view = BodyView {
        scope,
        tables,
        function,
        labels: &labels.numbers,
        blocks: labels.blocks,
    };
    read_all(alloc, &view, lines, body.close)
}
