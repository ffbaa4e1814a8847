//! Laws over definitions alone. They take no memory and do nothing: a caller learns what they ensure.

ghost use Rattle.std.specs.Prelude.{◌≡◌, ℕ, List};
ghost use Rattle.hilti_tree.specs.declared.call.Call.{Call};
ghost use Rattle.hilti_core.specs.Core.{Core};
ghost use Rattle.hilti_log.specs.Reports.{IsReport};
ghost use Rattle.hilti_one.specs.Alone.{RanAlone};

use hilti_core::Body;

/// What one worker reports is told by the body, the calls and the limit.
pub fn one_report<B: Body>()
    ensures { (about : B.Data) (calls : List Call) (limit : ℕ) (c d : Core) (a b : List ℕ) →
        RanAlone (B.effect about) calls limit c → RanAlone (B.effect about) calls limit d →
        IsReport c a → IsReport d b → a ≡ b }
{}
