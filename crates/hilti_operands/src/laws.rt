//! Laws of operands that are read. They do nothing: a caller learns what they ensure.
ghost use Rattle.hilti_operands.specs.Laws.{ReadsWhatIsAsked, ReadsWhatFits, ReadsAtItsWidth};
ghost use Rattle.hilti_operands.specs.Laws.{ReadsNoBodies, RefusesTheFirst};

/// What is read where a kind is asked is what the kind asks for: a value of its type, a function, or a field.
pub fn reads_what_is_asked()
    ensures { ReadsWhatIsAsked }
{}

/// The operands of a line that are read fit the row whose kinds were asked, in the body that they were read in.
pub fn reads_what_fits()
    ensures { ReadsWhatFits }
{}

/// The width that the numbers of a line are read at is the one that typing finds in its operands and its target.
pub fn reads_at_its_width()
    ensures { ReadsAtItsWidth }
{}

/// An operand that names a function names none that is a hook body.
pub fn reads_no_bodies()
    ensures { ReadsNoBodies }
{}

/// A refusal of operands is that of the first one that is refused: those in front of it are read, and it is refused
/// behind what they tell.
pub fn refuses_the_first()
    ensures { RefusesTheFirst }
{}
