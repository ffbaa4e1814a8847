//! The instructions of a block.
ghost use Rattle.std.specs.Prelude.{◌≡◌};
ghost use Rattle.hilti_typing.specs.Programs.{is_ending};
ghost use Rattle.hilti_operands.specs.Answers.{Told};
ghost use Rattle.hilti_operands.specs.Seen.{body_seen};
ghost use Rattle.hilti_bodies.specs.Blocks as spec;
ghost use Rattle.hilti_bodies.specs.Sections.{leading, first_label};

use crate::codes::{AFTER_END, NO_END};
use hilti_base::{Place, Refusal};
use hilti_lines::read_line;
use hilti_module::Line;
use hilti_operands::{BodyView, refusal};
use hilti_parts::{Instruction, Instructions};
use hilti_table::row_of;
use std::alloc::Global;

/// Whether an instruction is an ending one.
fn ends(instruction: &Instruction) -> bool
    ensures { result ≡ is_ending instruction.now }
{
    row_of(instruction.op).flow.ends()
}

/// The instructions of a block, whose last one has to be an ending one. Else what stands behind the block is refused.
fn end_block(
    instructions: Instructions,
    ended: bool,
    behind: Place,
) -> Result<Instructions, Refusal>
    ensures { result ≡ spec.ended_block ended instructions behind }
{
    if ended {
        Ok(instructions)
    } else {
        Err(refusal(behind, NO_END))
    }
}

/// The instructions in front of the first label of some lines, or of the closing brace.
pub fn read_instructions(
    alloc: Global,
    body: &BodyView<'_>,
    lines: &[Line],
    close: Place,
) -> Result<Instructions, Refusal>
    ensures { Told result (spec.read_instructions (body_seen body.now) (leading lines.now)
        (first_label lines.now close)) }
{
    let mut instructions = Instructions::new(alloc);
    let mut ended = false;
    for line in lines {
        match line {
            Line::Label {
                place,
                name: _,
                handlers: _,
            } => return end_block(instructions, ended, *place),
            Line::Instruction {
                target,
                mnemonic,
                operands,
            } => {
                if ended {
                    return Err(refusal(mnemonic.first.place, AFTER_END));
                }
                match read_line(alloc, body, target.as_ref(), mnemonic, operands.as_slice()) {
                    Ok(instruction) => {
                        ended = ends(&instruction);
                        instructions.push(instruction)?;
                    }
                    Err(refusal) => return Err(refusal),
                }
            }
        }
    }
    end_block(instructions, ended, close)
}
