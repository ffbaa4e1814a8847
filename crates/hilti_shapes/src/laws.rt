//! Laws of calls of typed programs. They do nothing: a caller learns what they ensure.
ghost use Rattle.hilti_parts.specs.declared.parts.Parts.{Parts};
ghost use Rattle.hilti_shapes.specs.Examples.{TypedBeginning, UntypedBeginnings, TypedValues};
ghost use Rattle.hilti_shapes.specs.Keeping.{FindWhatRowsAsk, ActsKeepTypes, ReturnsKeepTypes};
ghost use Rattle.hilti_shapes.specs.Keeping.{EntriesAreTyped, FreshThreadsAreTyped};
ghost use Rattle.hilti_code.specs.Runnable.{IsTypedProgram};

/// A call in progress of a typed program is at a row, and finds values and objects as the row asks, whatever heap
/// stands for its store and counts what its slots and the globals hold.
pub fn typing_gives_what_rows_ask()
    ensures { (parts : Parts) → IsTypedProgram parts → FindWhatRowsAsk parts }
{}

/// What a call in progress does next leaves it typed, by the same types of objects with those of new ones: it goes on,
/// calls a function with arguments of its parameters' types, or ends with a result of its type or an exception.
pub fn acts_keep_types()
    ensures { (parts : Parts) → IsTypedProgram parts → ActsKeepTypes parts }
{}

/// A caller that goes on after its callee ended is typed: it takes a result of its target's type, or a handler of its
/// block takes the exception, or it ends too.
pub fn returns_keep_types()
    ensures { (parts : Parts) → IsTypedProgram parts → ReturnsKeepTypes parts }
{}

/// A function that is entered with arguments of its parameters' types begins a typed call, and a thread that ran
/// nothing is typed.
pub fn beginnings_are_typed()
    ensures entries { (parts : Parts) → IsTypedProgram parts → EntriesAreTyped parts }
    ensures threads { (parts : Parts) → IsTypedProgram parts → FreshThreadsAreTyped parts }
{}

/// A call that begins is typed, and isn't with a value of another type in a global, with a slot too few, behind its
/// last instruction, or with arguments that are half made. Numbers and references have the types that they fit.
pub fn examples()
    ensures typed { TypedBeginning }
    ensures untyped { UntypedBeginnings }
    ensures values { TypedValues }
{}
