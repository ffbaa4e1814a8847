//! Laws of bodies that are read. They do nothing: a caller learns what they ensure.
ghost use Rattle.std.specs.Prelude.{List};
ghost use Rattle.hilti_base.specs.declared.names.Place.{Place};
ghost use Rattle.hilti_module.specs.declared.module.Line.{Line};
ghost use Rattle.hilti_bodies.specs.Examples.{RefusedBodies};
ghost use Rattle.hilti_bodies.specs.Laws.{IsCutAtLabels, ReadsTypedBlocks};
ghost use Rattle.hilti_bodies.specs.Laws.{ReadsNoBodies, ReadsShortBlocks};
ghost use Rattle.hilti_bodies.specs.Laws.{RefusesFirstBlock, RefusesFirstInstruction};

use hilti_lines::laws::{names_no_bodies, reads_typed_lines};

/// A body is its blocks: they have all its lines in order, and each ends where the next one's label stands, the last one
/// at the closing brace. Only the first may have no label, and that just where the body begins with none.
pub fn cut_at_labels()
    ensures { (body : List Line) (close : Place) → IsCutAtLabels body close }
{}

/// The blocks that are read of a body are as many as are written, at least one, and each is typed in the body: its
/// handlers, its instructions, and that its last instruction is its first ending one.
pub fn reads_typed_blocks()
    ensures { ReadsTypedBlocks }
{
    reads_typed_lines();
}

/// No operand of the blocks that are read of a body names a hook body: only a hook's run calls those.
pub fn reads_no_bodies()
    ensures { ReadsNoBodies }
{
    names_no_bodies();
}

/// The blocks that are read of a body are no more than its lines, but for one without a label, and none has more
/// instructions than the body has lines.
pub fn reads_short_blocks()
    ensures { ReadsShortBlocks }
{}

/// A refusal is that of the first block that has one, and there of the first instruction that is refused, that stands
/// behind an ending one, or that is missing as the end of its block. All that stands in front of it is read.
pub fn refuses_first_fault()
    ensures blocks { RefusesFirstBlock }
    ensures instructions { RefusesFirstInstruction }
{}

/// Bodies that are refused: one of no lines, ones whose block has no end or goes on behind it, or whose label is declared
/// again, and ones with a handler whose exception, label or slot isn't what it has to be.
pub fn examples()
    ensures { RefusedBodies }
{}
