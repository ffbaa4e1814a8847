//! Virtual threads that run the calls of a program.
ghost use Rattle.std.specs.Prelude.{◌≡◌, ◌≤◌, IfOk, IfSome};
ghost use Rattle.hilti_code.specs.Runnable.{IsTypedProgram};

use crate::calling::begin;
use crate::run::run;
use crate::vthread::Vthread;
use hilti_acting::Memory;
use hilti_base::{FnId, NoMemory, ThreadId};
use hilti_code::Code;
use hilti_core::{Body, Segment};
use hilti_heap::Heap;
use hilti_openings::first_globals;
use hilti_program::Program;
use hilti_tree::Call;
use std::alloc::Global;
use std::marker::Model;

/// A typed program as it is run, and how many instructions each of its calls may run. Contracts see its parts and this
/// fuel.
#[derive(Debug, Drop)]
pub struct Machine {
    program: Program,
    code: Code,
    fuel: u64,
}

impl Model for Machine {
    ghost use Rattle.std.specs.Prelude.{Some};
    ghost use Rattle.std.specs.Coded.{codes};
    ghost use Rattle.hilti_types.specs.contracts.value_type.ValueType as kinds;
    ghost use Rattle.hilti_types.specs.contracts.value_type.Inner as objects;
    ghost use Rattle.hilti_tree.specs.contracts.tree.Tree as trees;
    ghost use Rattle.hilti_parts.specs.contracts.parts.Operand as operands;
    ghost use Rattle.hilti_code.specs.Rows.{rows_of};
    ghost use Rattle.hilti_code.specs.Runnable.{IsTypedProgram};
    ghost use Rattle.hilti_machine.specs.Threads.{Facts, IsMachine};

    ghost Value = { Facts };

    ghost coded = { Prim.hlevel (
      codes,
      kinds.the_row.coded,
      objects.the_row.coded,
      trees.the_row.coded,
      operands.the_row.coded,
    ) };

    ghost view = { λ machine. record { parts = machine.program; fuel = machine.fuel } };

    ghost invariant = { λ machine. IsMachine machine.program machine.code.functions };
}

impl Machine {
    ghost use Rattle.hilti_code.specs.Rows.{rows_of};
    ghost use Rattle.hilti_effects.specs.Effect.{first_of};
    ghost use Rattle.hilti_program.specs.Programs.{IsEntryOf};
    ghost use Rattle.hilti_typing.specs.Programs.{bare_signature};
    ghost use Rattle.hilti_machine.specs.Threads.{IsMachine};

    /// A machine that gives each call this fuel, from 1 to 1,000,000,000.
    pub fn new(alloc: Global, program: Program, fuel: u64) -> Result<Machine, NoMemory>
        requires typed { IsTypedProgram program }
        requires least { 1 ≤ fuel }
        requires most { fuel ≤ 1000000000 }
        ensures { IfOk result (λ machine. machine ≡ record { parts = program; fuel = fuel }) }
    {
        let Some(code) = Code::of(alloc, program.parts())? else {
            unreachable!()
        };
        Ok(Machine {
            program,
            code,
            fuel,
        })
    }

    /// The program, which is typed.
    fn program(&self) -> &Program
        ensures is { result.now ≡ self.now.parts }
        ensures typed { IsTypedProgram self.now.parts }
    {
        &self.program
    }

    /// The rows of the program.
    fn code(&self) -> &Code
        ensures { IsMachine self.now.parts result.now.functions }
    {
        &self.code
    }

    /// The function that a virtual thread runs before a call: `Main::init`, where it ran no call before.
    fn first(&self, ran: bool) -> Option<FnId>
        ensures is { result ≡ first_of self.now.parts ran }
        ensures entry { IfSome result (IsEntryOf self.now.parts bare_signature) }
    {
        if ran { None } else { self.program.init() }
    }
}

impl Body for Machine {
    ghost use Rattle.hilti_machine.specs.Segments.{effect_of, has_segments};
    ghost use Rattle.hilti_machine.specs.Sound.{IsSound};
    ghost use Rattle.hilti_machine.specs.Threads.{runs};

    type Vt = Vthread;

    type Data = Machine;

    ghost facts = { λ machine. machine };

    ghost effect = { effect_of };

    ghost sound = { IsSound };

    ghost runs = { runs };

    ghost segments = { has_segments };

    /// A virtual thread that ran nothing yet.
    fn fresh(&self, alloc: Global, thread: ThreadId) -> Result<Vthread, NoMemory> {
        let program = self.program();
        let parts = program.parts();
        let globals = first_globals(alloc, parts.globals.as_slice())?;
        let heap = Heap::new(alloc);
        Ok(Vthread {
            alloc,
            number: thread,
            ran: false,
            memory: Memory { globals, heap },
            calling: None,
        })
    }

    /// Makes a sound call the call in progress of a virtual thread that has none. After `NoMemory` the virtual
    /// thread is only dropped.
    fn start(&self, vt: &mut Vthread, call: Call) -> Result<(), NoMemory> {
        let program = self.program();
        let first = self.first(vt.ran);
        let calling = begin(vt.alloc, program, first, call, self.fuel)?;
        vt.ran = true;
        vt.calling = Some(calling);
        Ok(())
    }

    /// Runs the call in progress to the end of its next segment. After `NoMemory` the virtual thread is only dropped.
    fn segment(&self, vt: &mut Vthread) -> Result<Segment, NoMemory> {
        let program = self.program();
        let code = self.code();
        let Some(calling) = vt.calling.take() else {
            unreachable!()
        };
        let (segment, next) = run(vt.alloc, program, code, calling, &mut vt.memory)?;
        vt.calling = next;
        Ok(segment)
    }
}
