//! Instruction after instruction, to the end of a segment.
ghost use Rattle.std.specs.Prelude.{◌≡◌, ◌+◌, ◌≤◌, ℕ, Bool, [], IfOk, OnOk};
ghost use Rattle.hilti_effects.specs.State.{Ends};
ghost use Rattle.hilti_machine.specs.Threads.{IsMachine};
ghost use Rattle.hilti_machine.specs.Steps.{IsAmid, IsUnderWay, said, StepLeads, SegmentLeads};

use crate::calling::Calling;
use crate::leaving::leave;
use crate::letting::let_frames_go;
use crate::step::Step;
use hilti_acting::{Did, Memory, act};
use hilti_base::NoMemory;
use hilti_code::Code;
use hilti_core::{End, Item, Items, Segment};
use hilti_openings::spent_line;
use hilti_program::Program;
use std::alloc::Global;

/// Runs the next instruction, for one unit of fuel. What it prints goes behind the items.
fn step(
    alloc: Global,
    program: &Program,
    code: &Code,
    calling: &mut Calling,
    memory: &mut Memory,
    items: &mut Items,
) -> Result<Step, NoMemory>
    requires machine { IsMachine program.now code.now.functions }
    requires under_way { IsUnderWay program.now items.old calling.old memory.old }
    requires fuel { 1 ≤ calling.old.fuel }
    ensures function { OnOk result (calling.new.function ≡ calling.old.function) }
    ensures fuel { OnOk result (calling.new.fuel + 1 ≡ calling.old.fuel) }
    ensures leads { IfOk result (λ step. (all : Ends) (number : ℕ) (ran : Bool)
        → IsAmid program.now all (said items.old) calling.old memory.old number ran
        → StepLeads program.now all step items.new calling.new memory.new number ran) }
{
    calling.fuel -= 1;
    let did = act(
        alloc,
        program,
        code,
        &mut calling.top,
        &mut calling.stack,
        memory,
    )?;
    match did {
        Did::Went => Ok(Step::Goes),
        Did::Called => Ok(Step::Goes),
        Did::Said { text } => {
            items.push(Item::Line { text })?;
            Ok(Step::Goes)
        }
        Did::Yielded => Ok(Step::Suspends),
        Did::Left { ending } => {
            let step = leave(alloc, program, ending, calling, memory, items)?;
            Ok(step)
        }
    }
}

/// Runs a call to the end of its next segment, and gives the call back where it goes on behind it.
pub fn run(
    alloc: Global,
    program: &Program,
    code: &Code,
    calling: Calling,
    memory: &mut Memory,
) -> Result<(Segment, Option<Calling>), NoMemory>
    requires machine { IsMachine program.now code.now.functions }
    requires under_way { IsUnderWay program.now [] calling memory.old }
    ensures { IfOk result (λ ran_to. (all : Ends) (number : ℕ) (ran : Bool)
        → IsAmid program.now all (said []) calling memory.old number ran
        → SegmentLeads program.now calling.function all ran_to.0 ran_to.1 memory.new number ran) }
{
    let mut calling = calling;
    let mut items = Items::new(alloc);
    'instructions: while calling.fuel > 0 {
        match step(alloc, program, code, &mut calling, memory, &mut items)? {
            Step::Goes => {}
            Step::Suspends => {
                let segment = Segment {
                    items,
                    end: End::Yielded,
                };
                return Ok((segment, Some(calling)));
            }
            Step::Ends { end } => return Ok((Segment { items, end }, None)),
        }
    }
    let text = spent_line(alloc, program, calling.function)?;
    items.push(Item::Line { text })?;
    let_frames_go(&mut calling.stack, memory);
    let segment = Segment {
        items,
        end: End::OutOfFuel,
    };
    Ok((segment, None))
}
