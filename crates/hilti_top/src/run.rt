//! The run of a program by one worker.
ghost use Rattle.std.specs.Prelude.{◌≡◌, IfOk};
ghost use Rattle.std.specs.List.{All};
ghost use Rattle.hilti_code.specs.Runnable.{IsTypedProgram};
ghost use Rattle.hilti_feed.specs.Wholes.{ending_of};
ghost use Rattle.hilti_machine.specs.Sound.{IsSound};
ghost use Rattle.hilti_top.specs.Report.{EndsAs, ReportsCalls, facts_of};

use crate::output::Output;
use crate::status::Status;
use hilti_base::{Limits, NoMemory};
use hilti_feed::{CaptureCalls, CaptureEnd};
use hilti_log::report;
use hilti_machine::Machine;
use hilti_one::run_alone;
use hilti_program::Program;
use std::alloc::Global;

/// The report of a run of the calls of a capture, and how it ends.
pub fn run_calls(
    alloc: Global,
    limits: Limits,
    program: Program,
    capture: CaptureCalls,
) -> Result<Output, NoMemory>
    requires typed { IsTypedProgram program }
    requires sound { All (IsSound (facts_of limits program)) capture.calls }
    ensures { IfOk result (λ output. ReportsCalls limits program capture.calls
        (ending_of capture.end) output.status output.text) }
{
    let CaptureCalls { calls, end } = capture;
    let machine = Machine::new(alloc, program, limits.fuel)?;
    let pool = run_alone(alloc, &machine, calls, limits.calls)?;
    let text = report(alloc, &pool)?;
    let waiting = pool.waiting();
    Ok(Output {
        text,
        status: status_of(end, waiting),
    })
}

/// How a run ends, where its capture ended so and so many calls wait.
fn status_of(end: CaptureEnd, waiting: u64) -> Status
    ensures { EndsAs result (ending_of end) (waiting ≡ 0) }
{
    if waiting > 0 {
        return Status::CallLimit;
    }
    match end {
        CaptureEnd::Whole => Status::Done,
        CaptureEnd::Cut { at } => Status::CaptureCut { at },
    }
}
