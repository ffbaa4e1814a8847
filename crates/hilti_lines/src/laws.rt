//! Laws of lines that are read. They do nothing: a caller learns what they ensure.
ghost use Rattle.hilti_lines.specs.Examples.{RefusedLines, ReadLine};
ghost use Rattle.hilti_lines.specs.Laws.{ReadsTypedLines, NamesNoBodies};

/// A line that is read is typed in its body: its operands and its target fit the row of its mnemonic, at the width that
/// typing finds in them, and it may stand in the body.
pub fn reads_typed_lines()
    ensures { ReadsTypedLines }
{}

/// An operand of a line that is read names no hook body.
pub fn names_no_bodies()
    ensures { NamesNoBodies }
{}

/// Lines that are refused, each by its first fault, and lines that are read in bodies of both versions.
pub fn examples()
    ensures refused { RefusedLines }
    ensures read { ReadLine }
{}
