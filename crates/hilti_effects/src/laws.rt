//! Laws over definitions alone. They do nothing: a caller learns what they ensure.
ghost use Rattle.hilti_effects.specs.Laws.{EffectsEnd};

/// The segments of a call end once, and today they send nothing.
pub fn effects_end()
    ensures { EffectsEnd }
{}
