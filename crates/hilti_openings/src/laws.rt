//! Laws of the definitions of this crate. They do nothing when they are called: a caller learns what they ensure.
ghost use Rattle.hilti_parts.specs.declared.parts.Parts.{Parts};
ghost use Rattle.hilti_openings.specs.Openings.{BeginWithNothing};

/// What a thread and its calls begin with holds no object.
pub fn begin_with_nothing()
    ensures { (parts : Parts) → BeginWithNothing parts }
{}
