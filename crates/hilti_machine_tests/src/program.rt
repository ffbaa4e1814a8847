//! A program of three functions, a hook, a global and an exception of its own.
ghost use Rattle.std.specs.Prelude.{◌≡◌, IfOk};
ghost use Rattle.hilti_typing.specs.ProgramExamples as example;

use crate::exceptions::{below_exception, built_in};
use hilti_base::{Blob, FnId, NoMemory};
use hilti_parts::{
    Block, Blocks, Exceptions, FnIds, Function, Functions, Global as Variable, Globals, Handler,
    Handlers, Hook, Hooks, Instruction, Instructions, Operands, Parts, Slots,
};
use hilti_program::Program;
use hilti_tree::Tree;
use hilti_types::{Op, TypeTable, ValueType, ValueTypes};
use hilti_typing::laws::program_examples;
use std::alloc::Global;
use std::test::Fail;

/// A void function of one block, which just leaves by an instruction without operands.
fn leaving(
    alloc: Global,
    name: &[u8],
    slots: Slots,
    params: u32,
    handlers: Handlers,
    op: Op,
) -> Result<Function, NoMemory>
    ensures { IfOk result (λ f. f ≡ example.leaving name.now slots params handlers op) }
{
    let mut instructions = Instructions::new(alloc);
    instructions.push(Instruction {
        op,
        target: None,
        kind: None,
        operands: Operands::new(alloc),
    })?;
    let mut blocks = Blocks::new(alloc);
    blocks.push(Block {
        handlers,
        instructions,
    })?;
    Ok(Function {
        name: Blob::of(alloc, name)?,
        params,
        slots,
        result: None,
        blocks,
    })
}

fn packet(alloc: Global) -> Result<Function, NoMemory>
    ensures { IfOk result (λ f. f ≡ example.packet) }
{
    let mut slots = Slots::new(alloc);
    slots.push(ValueType::Time)?;
    slots.push(ValueType::Bytes)?;
    slots.push(ValueType::Text)?;
    let mut handlers = Handlers::new(alloc);
    handlers.push(Handler {
        exception: 7,
        block: 0,
        slot: 2,
    })?;
    let function = leaving(alloc, b"Main::packet", slots, 2, handlers, Op::ReturnVoid)?;
    Ok(function)
}

fn seen(alloc: Global) -> Result<Function, NoMemory>
    ensures { IfOk result (λ f. f ≡ example.seen) }
{
    let mut slots = Slots::new(alloc);
    slots.push(ValueType::Bool)?;
    let none = Handlers::new(alloc);
    let function = leaving(alloc, b"Main::seen", slots, 1, none, Op::HookStop)?;
    Ok(function)
}

fn done(alloc: Global) -> Result<Function, NoMemory>
    ensures { IfOk result (λ f. f ≡ example.done) }
{
    let slots = Slots::new(alloc);
    let none = Handlers::new(alloc);
    let function = leaving(alloc, b"Main::done", slots, 0, none, Op::ReturnVoid)?;
    Ok(function)
}

fn functions(alloc: Global) -> Result<Functions, NoMemory>
    ensures { IfOk result (λ functions. functions ≡ example.whole.functions) }
{
    let mut functions = Functions::new(alloc);
    functions.push(packet(alloc)?)?;
    functions.push(seen(alloc)?)?;
    functions.push(done(alloc)?)?;
    Ok(functions)
}

fn exceptions(alloc: Global) -> Result<Exceptions, NoMemory>
    ensures { IfOk result (λ exceptions. exceptions ≡ example.whole.exceptions) }
{
    let mut exceptions = built_in(alloc)?;
    exceptions.push(below_exception(alloc, b"Main::Odd")?)?;
    Ok(exceptions)
}

fn hooks(alloc: Global) -> Result<Hooks, NoMemory>
    ensures { IfOk result (λ hooks. hooks ≡ example.whole.hooks) }
{
    let mut params = ValueTypes::new(alloc);
    params.push(ValueType::Bool)?;
    let mut bodies = FnIds::new(alloc);
    bodies.push(FnId { n: 1 })?;
    let mut hooks = Hooks::new(alloc);
    hooks.push(Hook {
        name: Blob::of(alloc, b"Main::seen")?,
        params,
        bodies,
    })?;
    Ok(hooks)
}

fn globals(alloc: Global) -> Result<Globals, NoMemory>
    ensures { IfOk result (λ globals. globals ≡ example.whole.globals) }
{
    let mut globals = Globals::new(alloc);
    globals.push(Variable {
        name: Blob::of(alloc, b"Main::busy")?,
        kind: ValueType::Bool,
        first: Tree::Bool(false),
    })?;
    Ok(globals)
}

fn whole(alloc: Global) -> Result<Parts, NoMemory>
    ensures { IfOk result (λ parts. parts ≡ example.whole) }
{
    Ok(Parts {
        types: TypeTable::new(alloc),
        globals: globals(alloc)?,
        functions: functions(alloc)?,
        exceptions: exceptions(alloc)?,
        hooks: hooks(alloc)?,
    })
}

#[test]
fn keeps_its_parts(rt: HostRuntime) -> Result<(), Fail> {
    program_examples();
    let parts = whole(rt.alloc())?;
    let program = Program::new(parts);
    assert_eq!(rt; program.packet(), FnId { n: 0 });
    assert!(rt; program.init().is_none());
    assert_eq!(rt; program.done(), Some(FnId { n: 2 }));
    assert_eq!(rt; program.find(b"Main::seen"), Some(FnId { n: 1 }));
    assert!(rt; program.find(b"Main::see").is_none());
    assert_eq!(rt; program.functions(), 3);
    assert_eq!(rt; program.function(FnId { n: 1 }).params, 1);
    assert!(rt; program.name(FnId { n: 2 }) == b"Main::done".as_slice());
    assert_eq!(rt; program.exceptions(), 8);
    assert_eq!(rt; program.exception(7).parent, Some(0));
    assert!(rt; program.is_below(7, 0));
    assert!(rt; !program.is_below(0, 7));
    assert_eq!(rt; program.hooks(), 1);
    assert_eq!(rt; program.hook(0).bodies.len(), 1);
    assert_eq!(rt; program.parts().globals.len(), 1);
    Ok(())
}
