//! Laws over definitions alone, for every body. They take no memory and do nothing: a caller learns what they ensure.

ghost use Rattle.std.specs.Prelude.{ℕ};
ghost use Rattle.hilti_core.specs.declared.pieces.Segment.{Segment};
ghost use Rattle.hilti_core.specs.Core.{Core};
ghost use Rattle.hilti_core.specs.Journals.{IsStillOut};
ghost use Rattle.hilti_pool.specs.Work.{IsDone};

use hilti_core::Body;

/// What is done for a thread that is out is done still in every later core in which the thread is out as it was. So a
/// worker may run its segment while others take and put.
pub fn stays_done<B: Body>()
    ensures { (about : B.Data) (worker r : ℕ) (vt : B.Vt) (segment : Segment) (c d : Core) →
        IsDone (B.effect about) (B.runs about) worker r vt segment c → IsStillOut worker r c d →
        IsDone (B.effect about) (B.runs about) worker r vt segment d }
{}
