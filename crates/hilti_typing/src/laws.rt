//! Laws of typed lines. They do nothing: a caller learns what they ensure.
ghost use Rattle.std.specs.Prelude.{ℕ};
ghost use Rattle.hilti_types.specs.declared.value_type.Inner.TheVariants as inners;
ghost use Rattle.hilti_table.specs.declared.row.Family.TheVariants as families;
ghost use Rattle.hilti_parts.specs.declared.parts.Function.{Function as Body};
ghost use Rattle.hilti_parts.specs.declared.parts.Parts.{Parts as Whole};
ghost use Rattle.hilti_typing.specs.Examples.{FittingLines, RefusedLines};
ghost use Rattle.hilti_typing.specs.Exceptions.{ExceptionsMakeTree};
ghost use Rattle.hilti_typing.specs.Laws.{PlainRows, NumberRows, OwnRows, FlowRows, CallRows};
ghost use Rattle.hilti_typing.specs.Laws.{ObjectRows, ItemRows, MapRows, StructRows, TupleRows};
ghost use Rattle.hilti_typing.specs.Laws.{ClassifierRows, OverlayRows, PassedTests, Targets};
ghost use Rattle.hilti_typing.specs.ProgramExamples.{whole, UntypedParts};
ghost use Rattle.hilti_typing.specs.Programs.{AreTyped};
ghost use Rattle.hilti_typing.specs.ProgramLaws.{TypedBlocksEnd, NamedParts, BodiesOfHooks};

/// Rows on plain types meet values of the types that they name, and their target is of the type that they name.
pub fn plain_rows()
    ensures { PlainRows }
{}

/// Rows on numbers of one width meet such numbers.
pub fn number_rows()
    ensures { NumberRows }
{}

/// Rows on values of a type that passes a test meet such values, and their target follows the type: so `assign`,
/// `select`, `equal`, `less`, `hash`, `int.as` and the rows on iterators. `print` meets at most 8 sendable values.
pub fn own_rows()
    ensures { OwnRows }
{}

/// `jump` and `if.else` meet blocks of the body, `return.result` a value of the type of its result, and
/// `exception.throw` an exception of the program.
pub fn flow_rows()
    ensures { FlowRows }
{}

/// `call` and `callable.bind` meet a function, and `hook.run` a hook, with arguments of the types of its parameters.
/// `thread.schedule` meets a function whose parameters are of sendable types.
pub fn call_rows()
    ensures { CallRows }
{}

/// `new` meets the type of an object that can be made. Rows on a reference meet one to an object of their family.
pub fn object_rows()
    ensures { ObjectRows }
{}

/// Rows on a list, a vector or a set and an item meet an item of the type that the object holds.
pub fn item_rows()
    ensures lists { ItemRows families.List inners.List }
    ensures vectors { ItemRows families.Vector inners.Vector }
    ensures sets { ItemRows families.Set inners.Set }
{}

/// Rows on a map meet keys and values of the types of the map.
pub fn map_rows()
    ensures { MapRows }
{}

/// Rows on a struct and a field meet a field that the struct has, and a value of the type of the field.
pub fn struct_rows()
    ensures { StructRows }
{}

/// `tuple.make` meets 1 to 8 values, and `tuple.get` a tuple and the place of one of its parts.
pub fn tuple_rows()
    ensures { TupleRows }
{}

/// Rows on a classifier meet a rule, or what is asked for, with a value for each part of the rules.
pub fn classifier_rows()
    ensures { ClassifierRows }
{}

/// `overlay.get` meets an overlay and one of its fields, and its target is of the type of the field.
pub fn overlay_rows()
    ensures { OverlayRows }
{}

/// Only whole numbers, tuples and iterators pass the tests that ask for them.
pub fn passed_tests()
    ensures { PassedTests }
{}

/// A target that follows what is known is of the known type, an iterator over the known object, or of the type of
/// what a known iterator gives.
pub fn targets()
    ensures { Targets }
{}

/// A typed block ends with an ending instruction, and has none before it.
pub fn typed_blocks_end()
    ensures { TypedBlocksEnd }
{}

/// What typed lines and handlers name is there: the block of a handler and of a `jump`, and the function of a `call`,
/// with arguments of the types of its parameters and a target, if one, of the type of its result.
pub fn named_parts()
    ensures { (parts : Whole) (at : ℕ) (f : Body) → NamedParts parts at f }
{}

/// The built-in exceptions are found at their numbers. Each exception but `Exception` has a parent, which stands before
/// it, so that every chain of parents ends at `Exception`.
pub fn exceptions_make_tree()
    ensures { ExceptionsMakeTree }
{}

/// A function is a body of a hook just where it stands at a place of one.
pub fn bodies_of_hooks()
    ensures { (parts : Whole) → BodiesOfHooks parts }
{}

/// Some lines that are typed in a body, and some that aren't: with a number of another width, a target or an item of
/// another type, a block that isn't there, a timer that is sent, a result of a void function, or an operand too many.
pub fn examples()
    ensures fitting { FittingLines }
    ensures refused { RefusedLines }
{}

/// Some parts that are typed, and some that aren't: without `packet` or with one that takes only a time, with a function
/// that stops a hook's run, with an exception that stands above itself, without the built-in exceptions, or with a body
/// of two hooks.
pub fn program_examples()
    ensures typed { AreTyped whole }
    ensures untyped { UntypedParts }
{}
