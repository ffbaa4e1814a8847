//! A program of which one function suspends itself, and one never ends.
ghost use Rattle.std.specs.Prelude.{◌≡◌, ◌≤◌, [], ◌∷◌, IfOk};
ghost use Rattle.hilti_code.specs.Runnable.{IsTypedProgram};
ghost use Rattle.hilti_machine_tests.specs.Example as written;
ghost use Rattle.hilti_machine_tests.specs.Example.{CallsAreSound};

use crate::exceptions::built_in;
use hilti_base::{Blob, Collection, FnId, NoMemory, ThreadId};
use hilti_core::{Body, End, Item, Segment};
use hilti_machine::{Machine, Vthread};
use hilti_parts::{
    Block, Blocks, Function, Functions, Globals, Handlers, Hooks, Instruction, Instructions,
    Operand, Operands, Parts, Slots,
};
use hilti_program::Program;
use hilti_tree::{Call, Forest};
use hilti_types::{Op, TypeTable, ValueType};
use std::alloc::Global;
use std::process::Abort;
use std::test::Fail;

/// The program is typed, and its functions without parameters may be called.
fn example_is_sound()
    ensures typed { IsTypedProgram written.example }
    ensures calls { CallsAreSound }
{}

fn one<T: Drop>(alloc: Global, item: T) -> Result<Collection<T>, NoMemory>
    ensures { IfOk result (λ items. items ≡ item ∷ []) }
{
    let mut items = Collection::new(alloc);
    items.push(item)?;
    Ok(items)
}

/// An instruction without a target.
fn plain(op: Op, operands: Operands) -> Instruction
    ensures { result ≡ written.plain op operands }
{
    Instruction {
        op,
        target: None,
        kind: None,
        operands,
    }
}

/// A void function of these blocks.
fn void(
    alloc: Global,
    name: &[u8],
    slots: Slots,
    params: u32,
    blocks: Blocks,
) -> Result<Function, NoMemory>
    ensures { IfOk result (λ f. f ≡ written.void name.now slots params blocks) }
{
    Ok(Function {
        name: Blob::of(alloc, name)?,
        params,
        slots,
        result: None,
        blocks,
    })
}

/// A block without handlers.
fn block(alloc: Global, instructions: Instructions) -> Block
    ensures { result ≡ written.block instructions }
{
    Block {
        handlers: Handlers::new(alloc),
        instructions,
    }
}

fn packet(alloc: Global) -> Result<Function, NoMemory>
    ensures { IfOk result (λ f. f ≡ written.packet) }
{
    let mut slots = Slots::new(alloc);
    slots.push(ValueType::Time)?;
    slots.push(ValueType::Bytes)?;
    let instructions = one(alloc, plain(Op::ReturnVoid, Operands::new(alloc)))?;
    let blocks = one(alloc, block(alloc, instructions))?;
    Ok(void(alloc, b"Main::packet", slots, 2, blocks)?)
}

fn pauses(alloc: Global) -> Result<Function, NoMemory>
    ensures { IfOk result (λ f. f ≡ written.pauses) }
{
    let mut instructions = one(alloc, plain(Op::Yield, Operands::new(alloc)))?;
    instructions.push(plain(Op::ReturnVoid, Operands::new(alloc)))?;
    let blocks = one(alloc, block(alloc, instructions))?;
    Ok(void(alloc, b"Main::pause", Slots::new(alloc), 0, blocks)?)
}

fn spins(alloc: Global) -> Result<Function, NoMemory>
    ensures { IfOk result (λ f. f ≡ written.spins) }
{
    let to = one(alloc, Operand::Block { n: 0 })?;
    let instructions = one(alloc, plain(Op::Jump, to))?;
    let blocks = one(alloc, block(alloc, instructions))?;
    Ok(void(alloc, b"Main::spin", Slots::new(alloc), 0, blocks)?)
}

fn functions(alloc: Global) -> Result<Functions, NoMemory>
    ensures { IfOk result (λ functions. functions ≡ written.example.functions) }
{
    let mut functions = Functions::new(alloc);
    functions.push(packet(alloc)?)?;
    functions.push(pauses(alloc)?)?;
    functions.push(spins(alloc)?)?;
    Ok(functions)
}

/// The program, with this fuel for each call.
fn machine(alloc: Global, fuel: u64) -> Result<Machine, NoMemory>
    requires least { 1 ≤ fuel }
    requires most { fuel ≤ 1000000000 }
    ensures { IfOk result (λ machine. machine ≡ record { parts = written.example; fuel = fuel }) }
{
    example_is_sound();
    let parts = Parts {
        types: TypeTable::new(alloc),
        globals: Globals::new(alloc),
        functions: functions(alloc)?,
        exceptions: built_in(alloc)?,
        hooks: Hooks::new(alloc),
    };
    let program = Program::new(parts);
    Ok(Machine::new(alloc, program, fuel)?)
}

/// A new virtual thread begins a call of a function without parameters, with this fuel.
fn first_segment(
    alloc: Global,
    machine: &Machine,
    function: u32,
) -> Result<(Vthread, Segment), Fail>
    requires example { machine.now.parts ≡ written.example }
    requires least { 1 ≤ function }
    requires most { function ≤ 2 }
{
    example_is_sound();
    let mut vt = machine.fresh(alloc, ThreadId { n: 3 })?;
    let args = Forest::new(alloc);
    let call = Call {
        function: FnId { n: function },
        args,
    };
    machine.start(&mut vt, call)?;
    let segment = machine.segment(&mut vt)?;
    Ok((vt, segment))
}

fn assert_lines<R: Abort>(rt: &R, segment: &Segment, lines: &[&[u8]]) {
    assert_eq!(rt; segment.items.len(), lines.len());
    for (item, line) in segment.items.as_slice().iter().zip(lines) {
        match item {
            Item::Line { text } => assert_eq!(rt; text.bytes(), *line),
            _ => assert!(rt; false, "no line"),
        }
    }
}

#[test]
fn suspends_itself(rt: HostRuntime) -> Result<(), Fail> {
    let machine = machine(rt.alloc(), 100)?;
    let (vt, segment) = first_segment(rt.alloc(), &machine, 1)?;
    assert_eq!(rt; segment.end, End::Yielded);
    assert!(rt; segment.items.is_empty());
    assert_eq!(rt; vt.place(), Some((FnId { n: 1 }, 0, 1)));
    assert_eq!(rt; vt.kept(), 0);
    Ok(())
}

#[test]
fn spends_its_fuel(rt: HostRuntime) -> Result<(), Fail> {
    let machine = machine(rt.alloc(), 100)?;
    let (vt, segment) = first_segment(rt.alloc(), &machine, 2)?;
    assert_eq!(rt; segment.end, End::OutOfFuel);
    assert_lines(&rt, &segment, &[b"! out of fuel in Main::spin"]);
    assert!(rt; vt.place().is_none());
    Ok(())
}
