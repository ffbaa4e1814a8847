//! Laws over definitions alone. They take no memory and do nothing: a caller learns what they
//! ensure.

ghost use Rattle.hilti_reading.specs.OneModule.{OneModule};
ghost use Rattle.hilti_reading.specs.Refusals.{NeverBoth, OneRefusal};

/// No text both is a module and is refused.
pub fn never_both()
    ensures { NeverBoth }
{}

/// A text is refused with one code, at one place.
pub fn one_refusal()
    ensures { OneRefusal }
{}

/// A text is at most one module: two modules of one text are equal.
pub fn one_module()
    ensures { OneModule }
{}
