//! The operands of a line, one after another.
ghost use Rattle.std.specs.Prelude.{◌≡◌, length, slice_get, replicate, OnOk, ◌++◌, ◌∷◌, []};
ghost use Rattle.hilti_table.specs.Rows.{kinds};
ghost use Rattle.hilti_typing.specs.Context.{Known as knows};
ghost use Rattle.hilti_typing.specs.Fits as fits;
ghost use Rattle.hilti_operands.specs.Answers.{StandsFor};
ghost use Rattle.hilti_operands.specs.Lines as spec;
ghost use Rattle.hilti_operands.specs.Lines.{Knows};
ghost use Rattle.hilti_operands.specs.Seen.{body_seen, line_seen, known_of, setting};

use crate::codes::BAD_COUNT;
use crate::known::Known;
use crate::learning::learn;
use crate::operands::read_operand;
use crate::view::LineView;
use hilti_base::{NoMemory, Refusal};
use hilti_module::Operand as Written;
use hilti_parts::{Operand, Operands};
use hilti_table::{Kind, Takes};
use std::alloc::Global;

/// The operands of a line that were read, and what is known behind them.
#[derive(Debug, Drop)]
pub struct ReadOperands {
    pub operands: Operands,
    pub known: Known,
}

/// The kind at a place.
fn picked(kinds: &[Kind], at: usize) -> Option<Kind>
    ensures { result ≡ slice_get kinds.now at }
{
    kinds.get(at).copied()
}

/// The kind at a place where one stands at each.
fn repeated(kind: Kind, written: usize, at: usize) -> Option<Kind>
    ensures { result ≡ slice_get (replicate written kind) at }
{
    if at < written { Some(kind) } else { None }
}

/// The kind of the operand at a place, where so many are written.
pub fn kind_at(takes: Takes, written: usize, at: usize) -> Option<Kind>
    ensures { result ≡ slice_get (kinds takes written) at }
{
    match takes {
        Takes::Nothing => None,
        Takes::One(a) => picked(&[a], at),
        Takes::Two(a, b) => picked(&[a, b], at),
        Takes::Three(a, b, c) => picked(&[a, b, c], at),
        Takes::Four(a, b, c, d) => picked(&[a, b, c, d], at),
        Takes::UpToEight(a) => repeated(a, written, at),
    }
}

/// Adds an operand, and tells what is known behind it.
fn added(
    alloc: Global,
    line: &LineView<'_>,
    kind: Kind,
    known: Known,
    operand: Operand,
    operands: &mut Operands,
) -> Result<Known, NoMemory>
    ensures new { OnOk result (operands.new ≡ operands.old ++ operand ∷ []) }
    ensures known { Knows (body_seen line.now.body) result
        (fits.learn (setting (line_seen line.now)) kind (known_of (body_seen line.now.body) known)
        operand) }
{
    let known = learn(alloc, line, kind, known, &operand)?;
    operands.push(operand)?;
    Ok(known)
}

/// Reads an operand and adds it, and tells what is known behind it.
fn read_next(
    alloc: Global,
    line: &LineView<'_>,
    kind: Kind,
    known: Known,
    operand: &Written,
    operands: &mut Operands,
) -> Result<Known, Refusal>
    ensures { StandsFor (spec.so_far (body_seen line.now.body) operands.new) result
        (spec.with_read (line_seen line.now) kind
        (spec.so_far (body_seen line.now.body) operands.old known) operand.now) }
{
    match read_operand(alloc, line, kind, &known, operand) {
        Ok(operand) => Ok(added(alloc, line, kind, known, operand, operands)?),
        Err(refusal) => Err(refusal),
    }
}

/// The operands of a line from left to right, each behind what those in front of it tell, or the first refusal: that of
/// an operand, and code 31 at the mnemonic for one too many or one too few.
pub fn read_all(
    alloc: Global,
    line: &LineView<'_>,
    takes: Takes,
    items: &[Written],
) -> Result<ReadOperands, Refusal>
    ensures { StandsFor (spec.read_of (body_seen line.now.body)) result
        (spec.read_all (line_seen line.now) (kinds takes (length items.now)) knows.Nothing
        items.now) }
{
    let mut operands = Operands::new(alloc);
    let mut known = Known::Nothing;
    for at in 0..items.len() {
        let Some(kind) = kind_at(takes, items.len(), at) else {
            return Err(Refusal::At {
                place: line.mnemonic,
                code: BAD_COUNT,
            });
        };
        match read_next(alloc, line, kind, known, &items[at], &mut operands) {
            Ok(behind) => {
                known = behind;
            }
            Err(refusal) => return Err(refusal),
        }
    }
    match kind_at(takes, items.len(), items.len()) {
        Some(_) => Err(Refusal::At {
            place: line.mnemonic,
            code: BAD_COUNT,
        }),
        None => Ok(ReadOperands { operands, known }),
    }
}
