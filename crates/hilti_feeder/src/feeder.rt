ghost use Rattle.std.specs.Prelude.{◌≡◌, ◌⊎◌, ◌<◌, ℕ, List, Bool, true, Option, IsNone, IfOk, OnOk};
ghost use Rattle.std.specs.Prelude.{IfSome, IfNone, OnSome};
ghost use Rattle.hilti_tree.specs.declared.call.Call.{Call};
ghost use Rattle.hilti_feeder.specs.Feeding.{Gave, Emptied, WasEmpty, SaysWhetherMore, BecameLost};
ghost use Rattle.hilti_feeder.specs.Feeding.{CountsFaults};

use hilti_base::NoMemory;
use hilti_tree::Call;

/// A source of calls, which gives one after another. What it reads from may fail; it is then lost, and gives no more.
/// After `NoMemory` it is only dropped.
pub trait Feeder {
    /// What a feeder was made with: plain data.
    type Origin;

    /// The calls that it will still give, in order, where that is told.
    ghost coming: { Self → Option (List Call) };

    /// How often what it reads from failed.
    ghost faults: { Self → ℕ };

    /// Whether a failed read ended it.
    ghost lost: { Self → Bool };

    /// What it was made with. A call that answers leaves it as it is.
    ghost origin: { Self → Self.Origin };

    /// A test that every call passes which a feeder of this origin gives, whether its calls are told or not.
    ghost gives: { Self.Origin → Call → Type 0 };

    /// Whether it was read to its end: `next` answered that there is no further call, or `rest` answered.
    ghost ended: { Self → Bool };

    /// The next call. `None` comes exactly where there is none, or where a failed read ended the feeder in this call.
    fn next(&mut self) -> Result<Option<Call>, NoMemory>
        ensures some { IfOk result (λ next. IfSome next (λ call.
            Gave (coming self.old) call (coming self.new))) }
        ensures passes { IfOk result (λ next. IfSome next (gives (origin self.old))) }
        ensures goes_on { IfOk result (λ next. OnSome next
            ((lost self.new ≡ lost self.old) × (ended self.new ≡ ended self.old))) }
        ensures none { IfOk result (λ next. IfNone next
            (WasEmpty (coming self.old) ⊎ BecameLost (lost self.old) (lost self.new))) }
        ensures emptied { IfOk result (λ next. IfNone next
            (Emptied (coming self.old) (coming self.new))) }
        ensures ended { IfOk result (λ next. IfNone next (ended self.new ≡ true)) }
        ensures fault { IfOk result (λ next. faults self.old < faults self.new →
            (lost self.new ≡ true) × IsNone next) }
        ensures faults { CountsFaults (faults self.old) (faults self.new)
            (lost self.old) (lost self.new) }
        ensures origin { OnOk result (origin self.new ≡ origin self.old) };

    /// Goes to the end, and says whether a call was still to come. Where a failed read ended the feeder in this call,
    /// the answer says nothing.
    fn rest(&mut self) -> Result<bool, NoMemory>
        ensures more { IfOk result (λ more. BecameLost (lost self.old) (lost self.new)
            ⊎ SaysWhetherMore (coming self.old) more) }
        ensures emptied { OnOk result (Emptied (coming self.old) (coming self.new)) }
        ensures ended { OnOk result (ended self.new ≡ true) }
        ensures fault { OnOk result (faults self.old < faults self.new → lost self.new ≡ true) }
        ensures faults { CountsFaults (faults self.old) (faults self.new)
            (lost self.old) (lost self.new) }
        ensures origin { OnOk result (origin self.new ≡ origin self.old) };
}
