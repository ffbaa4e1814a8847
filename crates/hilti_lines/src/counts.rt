//! The numbers of operands.
ghost use Rattle.std.specs.Prelude.{◌≡◌, length};
ghost use Rattle.hilti_resolve.specs.Answering.{Makes};
ghost use Rattle.hilti_operands.specs.Answers.{StandsFor};
ghost use Rattle.hilti_operands.specs.Lines.{read_of};
ghost use Rattle.hilti_operands.specs.Seen.{body_seen, line_seen};
ghost use Rattle.hilti_lines.specs.Lines as spec;

use crate::codes::BAD_COUNT;
use hilti_base::{NoMemory, Refusal};
use hilti_module::Operand as Written;
use hilti_operands::{LineView, ReadOperands, are_counted, read_all, refusal};
use hilti_table::Takes;
use std::alloc::Global;

/// Whether a row takes so many operands.
fn is_count(takes: Takes, count: usize) -> bool
    ensures { result ≡ spec.is_count takes count }
{
    match takes {
        Takes::Nothing => count == 0,
        Takes::One(_) => count == 1,
        Takes::Two(_, _) => count == 2,
        Takes::Three(_, _, _) => count == 3,
        Takes::Four(_, _, _, _) => count == 4,
        Takes::UpToEight(_) => count <= 8,
    }
}

/// Whether the operands, and those in parentheses, are as many as they have to be.
fn has_counts(
    alloc: Global,
    line: &LineView<'_>,
    takes: Takes,
    items: &[Written],
) -> Result<bool, NoMemory>
    ensures { Makes result (spec.has_counts (line_seen line.now) takes items.now) }
{
    if is_count(takes, items.len()) {
        are_counted(alloc, line, takes, items)
    } else {
        Ok(false)
    }
}

/// The operands of a line. A wrong number of them is refused with code 31 at the mnemonic, before any is looked at.
pub fn read_operands(
    alloc: Global,
    line: &LineView<'_>,
    takes: Takes,
    items: &[Written],
) -> Result<ReadOperands, Refusal>
    ensures { StandsFor (read_of (body_seen line.now.body)) result
        (spec.read_operands (line_seen line.now) takes items.now) }
{
    if has_counts(alloc, line, takes, items)? {
        read_all(alloc, line, takes, items)
    } else {
        Err(refusal(line.mnemonic, BAD_COUNT))
    }
}
