ghost use Rattle.std.specs.Prelude.{◌≡◌, ◌==◌, IsTrue, ◌↔◌};
ghost use Rattle.std.specs.List.{Contains};
ghost use Rattle.hilti_outside.specs.Fakes.{counted};
ghost use Rattle.hilti_outside.specs.Faults.{Rose};

use crate::count::one_more;
use crate::files::Failed;
use hilti_base::Numbers;

/// Which calls of a fake fail, by their number, and how many did.
#[derive(Debug, Drop)]
pub struct Plan {
    pub fails: Numbers,
    pub calls: u64,
    pub faults: u64,
}

impl Plan {
    /// No call was made, and those of these numbers will fail.
    pub fn new(fails: Numbers) -> Plan
        ensures { result ≡ record { fails = fails; calls = 0; faults = 0 } }
    {
        Plan {
            fails,
            calls: 0,
            faults: 0,
        }
    }

    /// Counts one more call, and says whether it is one of those that fail.
    pub fn fails_now(&mut self) -> bool
        ensures counts { self.new ≡ record self.old { calls = counted self.old.calls } }
        ensures named { IsTrue result ↔ Contains self.old.fails self.new.calls }
    {
        self.calls = one_more(self.calls);
        self.fails.as_slice().contains(&self.calls)
    }

    /// Counts one more fault.
    pub fn fault(&mut self) -> Failed
        ensures counts { self.new ≡ record self.old { faults = counted self.old.faults } }
        ensures rose { Rose self.old.faults self.new.faults }
    {
        self.faults = one_more(self.faults);
        Failed
    }
}
