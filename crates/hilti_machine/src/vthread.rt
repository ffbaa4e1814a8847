ghost use Rattle.std.specs.Prelude.{◌≡◌, ◌↔◌, ℕ, List, Option, None, IsNone};
ghost use Rattle.hilti_tree.specs.declared.call.Call.{Call as Called};
ghost use Rattle.hilti_core.specs.Core.{Running};
ghost use Rattle.hilti_heap.specs.Cells.{kept_in};
ghost use Rattle.hilti_machine.specs.Threads.{Facts, runs, IsPlace, KeepsOnlyHeld};

use crate::calling::Calling;
use hilti_acting::Memory;
use hilti_base::{FnId, ThreadId};
use std::alloc::Global;
use std::marker::Model;

/// A virtual thread: its number, its globals and objects, and its call in progress.
#[derive(Debug, Drop)]
pub struct Vthread {
    pub alloc: Global,
    pub number: ThreadId,
    pub memory: Memory,
    /// Whether it began a call before.
    pub ran: bool,
    pub calling: Option<Calling>,
}

impl Model for Vthread {
    ghost use Rattle.std.specs.Coded.{codes};
    ghost use Rattle.hilti_values.specs.contracts.value.Value as values;
    ghost use Rattle.hilti_machine.specs.Threads.{Thread};

    ghost Value = { Thread };

    ghost coded = { Prim.hlevel (codes, values.the_row.coded) };

    ghost view = { λ vt. record {
      number = vt.number.n;
      ran = vt.ran;
      memory = vt.memory;
      calling = vt.calling;
    } };
}

impl Vthread {
    /// The function, block and place in the block of the next instruction; `None` exactly where no call is in progress.
    /// It takes no memory.
    pub fn place(&self) -> Option<(FnId, u32, u32)>
        ensures none { IsNone result ↔ (self.now.calling ≡ None) }
        ensures next { (facts : Facts) (number : ℕ) (finished : List Called)
            (running : Option Running) → runs facts self.now number finished running
            → IsPlace facts number finished running result }
    {
        let top = self.calling.as_ref()?.top;
        Some((top.function, top.block, top.at))
    }

    /// How many objects it keeps. Each of them is held by its frames, by its globals, or by another of them. It takes no
    /// memory.
    pub fn kept(&self) -> u64
        ensures count { result ≡ kept_in self.now.memory.heap.cells }
        ensures held { (facts : Facts) (number : ℕ) (finished : List Called)
            (running : Option Running) → runs facts self.now number finished running
            → KeepsOnlyHeld self.now }
    {
        self.memory.heap.kept()
    }
}
