//! Laws of programs that are checked. They do nothing: a caller learns what they ensure.
ghost use Rattle.hilti_check.specs.Laws.{BuiltIsHasRow, CheckedAreTyped};

use hilti_bodies::laws::{cut_at_labels, reads_no_bodies, reads_short_blocks, reads_typed_blocks};
use hilti_declared::laws as declared;

/// The program that linked modules are is typed, and each of its instructions has a row.
pub fn checked_are_typed()
    ensures { CheckedAreTyped }
{
    cut_at_labels();
    reads_typed_blocks();
    reads_no_bodies();
    reads_short_blocks();
    declared::exceptions_are_typed();
    declared::globals_begin_typed();
    declared::hooks_are_typed();
    declared::bodies_of_hooks();
    declared::entries_are_there();
    declared::functions_have_bodies();
    declared::tables_are_short();
    declared::bodies_are_short();
}

/// An instruction is built just where it has a row and prints what has a text.
pub fn built_is_has_row()
    ensures { BuiltIsHasRow }
{}
