//! Laws over definitions alone. They take no memory and do nothing: a caller learns what they ensure.

ghost use Rattle.std.specs.Prelude.{◌≡◌, ℕ, List};
ghost use Rattle.hilti_core.specs.Core.{Core};
ghost use Rattle.hilti_log.specs.Reports.{IsReport};

/// A core has one report.
pub fn one_report()
    ensures { (c : Core) (a b : List ℕ) → IsReport c a → IsReport c b → a ≡ b }
{}
