//! What follows where the top of a call ended.
ghost use Rattle.std.specs.Prelude.{◌≡◌, ℕ, List, Bool, None, IfOk, OnOk};
ghost use Rattle.hilti_parts.specs.declared.parts.Parts.{Parts};
ghost use Rattle.hilti_core.specs.declared.pieces.Item.{Item as ItemOf};
ghost use Rattle.hilti_effects.specs.State.{Ends};
ghost use Rattle.hilti_effects.specs.declared.ending.Ending.TheVariants as endings;
ghost use Rattle.hilti_machine.specs.Steps.{HasLeft, TopHasLeft, HasReturned, StepLeads};
ghost use Rattle.hilti_machine.specs.Steps.{IsSameCall, GoesBehind};

use crate::calling::Calling;
use crate::letting::let_result_go;
use crate::step::Step;
use hilti_acting::{Memory, raised, returned};
use hilti_base::NoMemory;
use hilti_core::{End, Item, Items};
use hilti_effects::Ending;
use hilti_openings::uncaught_line;
use hilti_parts::Variable;
use hilti_program::Program;
use hilti_values::{SharedBytes, Value};
use std::alloc::Global;

/// What ran first has returned, and so the call's own function begins; where it ran before, the call is over.
fn go_behind(calling: &mut Calling) -> Step
    ensures same { IsSameCall calling.old calling.new }
    ensures leads { GoesBehind calling.old.behind result calling.new }
{
    match calling.behind.take() {
        Some(opened) => {
            calling.top = opened.position;
            calling.stack = opened.stack;
            Step::Goes
        }
        None => Step::Ends { end: End::Returned },
    }
}

/// The top returned: its caller takes the result and goes on.
fn give_back(
    calling: &mut Calling,
    memory: &mut Memory,
    target: Option<Variable>,
    value: Option<Value>,
) -> Step
    requires returned { HasReturned target value calling.old memory.old }
    ensures same { IsSameCall calling.old calling.new }
    ensures leads { (parts : Parts) (items : List ItemOf) (all : Ends) (number : ℕ) (ran : Bool)
        → HasLeft parts all items (endings.Returned target value) calling.old memory.old number ran
        → StepLeads parts all result items calling.new memory.new number ran }
{
    match returned(&mut calling.stack, memory, target, value) {
        Ok(top) => {
            calling.top = top;
            Step::Goes
        }
        Err(value) => {
            let_result_go(memory, value);
            go_behind(calling)
        }
    }
}

/// The top raised an exception that no handler of its block caught: a caller catches it and goes on, or the call is
/// over with its line.
fn hand_on(
    alloc: Global,
    program: &Program,
    exception: u32,
    text: SharedBytes,
    calling: &mut Calling,
    memory: &mut Memory,
    items: &mut Items,
) -> Result<Step, NoMemory>
    requires left { TopHasLeft program.now items.old (endings.Raised exception text) calling.old
        memory.old }
    ensures same { OnOk result (IsSameCall calling.old calling.new) }
    ensures leads { IfOk result (λ step. (all : Ends) (number : ℕ) (ran : Bool)
        → HasLeft program.now all items.old (endings.Raised exception text) calling.old memory.old
        number ran
        → StepLeads program.now all step items.new calling.new memory.new number ran) }
{
    match raised(program, &mut calling.stack, memory, exception, text) {
        Ok(top) => {
            calling.top = top;
            Ok(Step::Goes)
        }
        Err(text) => {
            let line = uncaught_line(alloc, program, exception, text.bytes(), calling.function)?;
            items.push(Item::Line { text: line })?;
            Ok(Step::Ends {
                end: End::Raised { exception },
            })
        }
    }
}

/// The top ended: a caller goes on, or the call is over.
pub fn leave(
    alloc: Global,
    program: &Program,
    ending: Ending,
    calling: &mut Calling,
    memory: &mut Memory,
    items: &mut Items,
) -> Result<Step, NoMemory>
    requires left { TopHasLeft program.now items.old ending calling.old memory.old }
    ensures same { OnOk result (IsSameCall calling.old calling.new) }
    ensures leads { IfOk result (λ step. (all : Ends) (number : ℕ) (ran : Bool)
        → HasLeft program.now all items.old ending calling.old memory.old number ran
        → StepLeads program.now all step items.new calling.new memory.new number ran) }
{
    match ending {
        Ending::Returned { target, value } => Ok(give_back(calling, memory, target, value)),
        Ending::Raised { exception, text } => {
            let step = hand_on(alloc, program, exception, text, calling, memory, items)?;
            Ok(step)
        }
        Ending::Stopped => unreachable!(),
    }
}
