//! Laws of the parts that linked modules declare. They do nothing: a caller learns what they ensure.
ghost use Rattle.hilti_declared.specs.Laws.{BodiesAreShort, BodiesBelongOnce, EntriesAreThere};
ghost use Rattle.hilti_declared.specs.Laws.{ExceptionsAreTyped, FunctionsHaveBodies};
ghost use Rattle.hilti_declared.specs.Laws.{GlobalsBeginTyped, HookBodiesAreLinked, HooksAreTyped};
ghost use Rattle.hilti_declared.specs.Laws.{TablesAreShort};

/// The exceptions are the built-in ones and then the declared ones, each with a parent that stands before it.
pub fn exceptions_are_typed()
    ensures { ExceptionsAreTyped }
{}

/// The globals begin with literals of their types, or with the defaults of these.
pub fn globals_begin_typed()
    ensures { GlobalsBeginTyped }
{}

/// Each body of a hook takes what the hook takes, and is void.
pub fn hooks_are_typed()
    ensures { HooksAreTyped }
{}

/// A function is a body of a hook just where it is linked as one; then of one hook, and stands once among its bodies.
pub fn bodies_of_hooks()
    ensures linked { HookBodiesAreLinked }
    ensures once { BodiesBelongOnce }
{}

/// `Main` has a function `packet` of a time and bytes, and where it has `init` or `done` they are functions without
/// parameters. All are void and no bodies of hooks.
pub fn entries_are_there()
    ensures { EntriesAreThere }
{}

/// Each function that is linked has a body at its site, and the version of its module.
pub fn functions_have_bodies()
    ensures { FunctionsHaveBodies }
{}

/// No list of what modules declare is long.
pub fn tables_are_short()
    ensures { TablesAreShort }
{}

/// No hook has many bodies.
pub fn bodies_are_short()
    ensures { BodiesAreShort }
{}
