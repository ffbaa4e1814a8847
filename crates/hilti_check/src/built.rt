//! Which instructions are built, and where the first one stands that isn't.
ghost use Rattle.std.specs.Prelude.{◌≡◌, drop, flat_map, IfOk};
ghost use Rattle.std.specs.List.{list_all, zip};
ghost use Rattle.hilti_code.specs.Runnable as runnable;
ghost use Rattle.hilti_declared.specs.Turns.{first_or_none};
ghost use Rattle.hilti_link.specs.Linking.{tables_of};
ghost use Rattle.hilti_rows.specs.declared.row.Printed.{Printed as APrinted};
ghost use Rattle.hilti_check.specs.Built as spec;

use hilti_base::{Collection, NoMemory, Place};
use hilti_declared::body_at;
use hilti_link::{Linked, LinkedFunction};
use hilti_module::Line;
use hilti_parts::{Block, Blocks, Instruction};
use hilti_rows::{Printed, Row, resolve};
use hilti_types::ValueType;
use std::alloc::Global;

/// Whether `print` has texts for the values of a type.
fn has_text(kind: &ValueType) -> bool
    ensures { result ≡ runnable.has_text kind.now }
{
    match kind {
        ValueType::Bool
        | ValueType::Int { bits: _ }
        | ValueType::Text
        | ValueType::Bytes
        | ValueType::Time => true,
        _ => false,
    }
}

/// Whether `print` has texts for all of some values.
fn have_texts(items: &[Printed]) -> bool
    ensures { result ≡ list_all (λ (item : APrinted). runnable.has_text item.kind) items.now }
{
    for item in items {
        if !has_text(&item.kind) {
            return false;
        }
    }
    true
}

/// Whether each value that a row prints has a text.
fn prints_texts(row: &Row) -> bool
    ensures { result ≡ spec.prints_texts row.now }
{
    match row {
        Row::Print { items } => have_texts(items.as_slice()),
        _ => true,
    }
}

/// Whether an instruction has a row, and prints what has a text.
fn is_built(alloc: Global, instruction: &Instruction) -> Result<bool, NoMemory>
    ensures { IfOk result (λ built. built ≡ spec.is_built instruction.now) }
{
    match resolve(alloc, instruction)? {
        Some(row) => Ok(prints_texts(&row)),
        None => Ok(false),
    }
}

/// The places of the mnemonics of some lines, in order.
fn mnemonic_places(alloc: Global, lines: &[Line]) -> Result<Collection<Place>, NoMemory>
    ensures { IfOk result (λ places. places ≡ flat_map spec.mnemonic_place lines.now) }
{
    let mut places = Collection::new(alloc);
    for line in lines {
        match line {
            Line::Instruction {
                target: _,
                mnemonic,
                operands: _,
            } => places.push(mnemonic.first.place)?,
            Line::Label { .. } => {}
        }
    }
    Ok(places)
}

/// The place of the first of some instructions that isn't built, where their places are these.
fn first_among(
    alloc: Global,
    places: &[Place],
    instructions: &[Instruction],
) -> Result<Option<Place>, NoMemory>
    ensures { IfOk result (λ first. first ≡ spec.unbuilt_place (zip places.now instructions.now)) }
{
    for (place, instruction) in places.iter().zip(instructions) {
        let built = is_built(alloc, instruction)?;
        if !built {
            return Ok(Some(*place));
        }
    }
    Ok(None)
}

/// The places behind so many of them.
fn places_behind(places: &[Place], count: usize) -> &[Place]
    ensures { result.now ≡ drop count places.now }
{
    if count < places.len() {
        &places[count..]
    } else {
        &[]
    }
}

/// The place of the first instruction of some blocks that isn't built, where the places of all are these.
fn first_in_blocks(
    alloc: Global,
    places: &[Place],
    blocks: &[Block],
) -> Result<Option<Place>, NoMemory>
    ensures { IfOk result (λ first. first
        ≡ spec.unbuilt_place (zip places.now (spec.instructions_of blocks.now))) }
{
    let mut left = places;
    for block in blocks {
        let instructions = block.instructions.as_slice();
        match first_among(alloc, left, instructions)? {
            Some(place) => return Ok(Some(place)),
            None => left = places_behind(left, instructions.len()),
        }
    }
    Ok(None)
}

/// The place of the first instruction that isn't built, in a function or a hook body with these blocks.
fn first_in_function(
    alloc: Global,
    linked: &Linked,
    function: &LinkedFunction,
    blocks: &[Block],
) -> Result<Option<Place>, NoMemory>
    ensures { IfOk result (λ first. first
        ≡ spec.unbuilt_place (spec.placed_in linked.now.modules function.now blocks.now)) }
{
    match body_at(linked.modules().as_slice(), function.site) {
        Some((_, body)) => {
            let places = mnemonic_places(alloc, body.lines.as_slice())?;
            Ok(first_in_blocks(alloc, places.as_slice(), blocks)?)
        }
        None => Ok(None),
    }
}

/// The blocks at a place, and none where there are no such.
fn blocks_at(all: &[Blocks], at: usize) -> &[Block]
    ensures { result.now ≡ first_or_none (drop at all.now) }
{
    match all.get(at) {
        Some(blocks) => blocks.as_slice(),
        None => &[],
    }
}

/// The place of the first instruction that isn't built, in textual order over the functions and hook bodies, each with
/// its blocks in turn. Besides the blocks it takes memory for the places of one body.
pub fn first_unbuilt(
    alloc: Global,
    linked: &Linked,
    blocks: &[Blocks],
) -> Result<Option<Place>, NoMemory>
    ensures { IfOk result (λ first. first ≡ spec.first_unbuilt linked.now.modules
        (tables_of linked.now.modules) blocks.now) }
{
    let functions = linked.tables().functions.as_slice();
    for (at, function) in functions.iter().enumerate() {
        let own = blocks_at(blocks, at);
        let first = first_in_function(alloc, linked, function, own)?;
        if first.is_some() {
            return Ok(first);
        }
    }
    Ok(None)
}
