//! Lines.
ghost use Rattle.std.specs.Prelude.{◌≡◌};
ghost use Rattle.std.specs.Option.{option_copied};
ghost use Rattle.hilti_table.specs.Table.{line_of};
ghost use Rattle.hilti_operands.specs.Answers.{Told};
ghost use Rattle.hilti_operands.specs.Lines.{read_of};
ghost use Rattle.hilti_operands.specs.Seen.{body_seen, line_seen};
ghost use Rattle.hilti_lines.specs.Lines as spec;

use crate::counts::read_operands;
use crate::mnemonic::read_mnemonic;
use crate::stands::{may_stand, stand_code};
use crate::target::{find_target, is_target, target_refusal};
use hilti_base::{Place, Refusal};
use hilti_link::Version;
use hilti_module::{Mnemonic, Name, Operand as Written};
use hilti_operands::{BodyView, LineView, ReadOperands, refusal, written_null, written_width};
use hilti_parts::{Instruction, Operands};
use hilti_table::{Row, exact, row_of};
use hilti_types::Op;
use std::alloc::Global;

/// The operands alone of those that were read.
fn operands_of(read: ReadOperands) -> Operands
    ensures { result ≡ read.operands }
{
    let ReadOperands { operands, known: _ } = read;
    operands
}

/// The operands that were read, where the instruction may stand in its body, and the target is one that its row allows.
fn end_read(
    alloc: Global,
    line: &LineView<'_>,
    row: Row,
    target: Option<&Name>,
    read: ReadOperands,
) -> Result<Operands, Refusal>
    ensures { Told result (spec.end_read (line_seen line.now) row (option_copied target.entry)
        (read_of (body_seen line.now.body) read)) }
{
    if !may_stand(&line.body, row.flow) {
        return Err(refusal(line.mnemonic, stand_code(row.flow)));
    }
    if is_target(alloc, line, target, row.gives, &read.known)? {
        Ok(operands_of(read))
    } else {
        Err(target_refusal(line, target))
    }
}

/// The operands of a line of a row, or its first refusal behind the mnemonic.
fn read_row(
    alloc: Global,
    line: &LineView<'_>,
    row: Row,
    target: Option<&Name>,
    items: &[Written],
) -> Result<Operands, Refusal>
    ensures { Told result (spec.read_row (line_seen line.now) row (option_copied target.entry)
        items.now) }
{
    match read_operands(alloc, line, row.takes, items) {
        Ok(read) => end_read(alloc, line, row, target, read),
        Err(refusal) => Err(refusal),
    }
}

/// The instruction of a line whose mnemonic is known.
fn read_in(
    alloc: Global,
    body: &BodyView<'_>,
    mnemonic: Place,
    op: Op,
    target: Option<&Name>,
    items: &[Written],
) -> Result<Instruction, Refusal>
    ensures { Told result (spec.read_in (body_seen body.now) mnemonic op
        (option_copied target.entry) items.now) }
{
    let row = row_of(op);
    let found = find_target(alloc, body, target)?;
    let width = written_width(alloc, body, &found.kind, row.takes, items)?;
    let null = written_null(alloc, body, &found.kind, row.takes, items)?;
    let line = LineView {
        body: *body,
        mnemonic,
        target: &found.kind,
        width,
        null: &null,
    };
    match read_row(alloc, &line, row, target, items) {
        Ok(operands) => Ok(Instruction {
            op,
            target: found.variable,
            kind: found.kind,
            operands,
        }),
        Err(refusal) => Err(refusal),
    }
}

/// What an instruction is in a body: in one of version 2 the exact instruction, where it has one.
fn op_in(body: &BodyView<'_>, op: Op) -> Op
    ensures { result ≡ spec.op_in (body_seen body.now) op }
{
    match body.function.version {
        Version::One => op,
        Version::Two => exact(op),
    }
}

/// The instruction that a line stands for, or its first refusal. In a body of version 2 it is the exact instruction of
/// its mnemonic, where there is one. The refusals, in this order: code 39 at a mnemonic that no instruction has; 31 at
/// the mnemonic for a wrong number of operands, or of those in parentheses behind a function, a hook or a classifier; the
/// operands from left to right, each at its place with its code; 37 and 38 at the mnemonic of a return or a `hook.stop`
/// that may not stand in the body; of the target 21 where its name means nothing, else 32, at the target or at the
/// mnemonic where it is missing.
pub fn read_line(
    alloc: Global,
    body: &BodyView<'_>,
    target: Option<&Name>,
    mnemonic: &Mnemonic,
    operands: &[Written],
) -> Result<Instruction, Refusal>
    ensures { Told result (spec.read_line (body_seen body.now) (option_copied target.entry)
        mnemonic.now operands.now) }
{
    match read_mnemonic(alloc, mnemonic) {
        Ok(op) => read_in(
            alloc,
            body,
            mnemonic.first.place,
            op_in(body, op),
            target,
            operands,
        ),
        Err(refusal) => Err(refusal),
    }
}
