ghost use Rattle.std.specs.Prelude.{◌≡◌, ◌↔◌, ◌<◌, ◌++◌, ◌∷◌, [], length, slice_get, slice_set};
ghost use Rattle.std.specs.Prelude.{Some, IsNone, IfNone, IfSome, OnOk, OnErr};

use crate::head::Head;
use hilti_base::NoMemory;
use hilti_values::Value;
use std::alloc::Global;
use std::marker::Model;
use std::mem;

/// A caller: what it is, and how many slots it has.
#[derive(Clone, Copy, Debug)]
struct Link {
    head: Head,
    count: usize,
}

/// The slots of frames: those of the callers, those of the top, and those that are being made for a callee. The head of
/// the top is with whoever runs it.
#[derive(Debug, Drop)]
pub struct Stack {
    values: Vec<Value>,
    /// Where the slots of the top begin.
    base: usize,
    /// How many slots the top has.
    count: usize,
    links: Vec<Link>,
}

impl Model for Stack {
    ghost use Rattle.std.specs.Coded.{codes};
    ghost use Rattle.hilti_values.specs.contracts.value.Value as value_rows;
    ghost use Rattle.hilti_stack.specs.Frames.{Frames};
    ghost use Rattle.hilti_stack.specs.View.{frames, IsStack};

    ghost Value = { Frames };

    ghost coded = { Prim.hlevel (codes, value_rows.the_row.coded) };

    ghost view = { frames };

    ghost invariant = { IsStack };
}

impl Stack {
    ghost use Rattle.hilti_stack.specs.Frames.{no_frames, with_slots, with_made, begun, entered};
    ghost use Rattle.hilti_stack.specs.Frames.{Leaves};

    /// A stack where nothing waits and the top has no slots. It takes no memory yet.
    pub fn new(alloc: Global) -> Stack
        ensures { result ≡ no_frames }
    {
        Stack {
            values: Vec::new(alloc),
            base: 0,
            count: 0,
            links: Vec::new(alloc),
        }
    }

    /// How many frames wait below the top.
    pub fn depth(&self) -> usize
        ensures { result ≡ length self.now.below }
    {
        self.links.len()
    }

    /// A slot of the top.
    #[inline]
    pub fn slot(&self, n: u32) -> &Value
        requires { n < length self.now.slots }
        ensures { slice_get self.now.slots n ≡ Some result.now }
    {
        &self.values[self.base + n as usize]
    }

    /// The slots of the top.
    pub fn slots(&self) -> &[Value]
        ensures { result.now ≡ self.now.slots }
    {
        &self.values.as_slice()[self.base..self.base + self.count]
    }

    /// Gives a slot of the top another value, and gives the old one back.
    #[inline]
    pub fn set(&mut self, n: u32, value: Value) -> Value
        requires { n < length self.old.slots }
        ensures stack { self.new ≡ with_slots self.old (slice_set self.old.slots n value) }
        ensures value { slice_get self.old.slots n ≡ Some result }
    {
        mem::replace(&mut self.values[self.base + n as usize], value)
    }

    /// The slots that are being made for a callee.
    pub fn made(&self) -> &[Value]
        ensures { result.now ≡ self.now.made }
    {
        &self.values.as_slice()[self.base + self.count..]
    }

    /// Makes a slot for a callee, behind those made so far. Without memory nothing changes, and the value is dropped.
    #[inline]
    pub fn make(&mut self, value: Value) -> Result<(), NoMemory>
        ensures ok { OnOk result (self.new ≡ with_made self.old (self.old.made ++ value ∷ [])) }
        ensures err { OnErr result (self.new ≡ self.old) }
    {
        self.values.push(value)?;
        Ok(())
    }

    /// Drops the slots that were made for a callee.
    pub fn unmake(&mut self)
        ensures { self.new ≡ with_made self.old [] }
    {
        self.values.truncate(self.base + self.count);
    }

    /// The slots that were made become those of the top, which had none.
    pub fn begin(&mut self)
        requires { self.old.slots ≡ [] }
        ensures { self.new ≡ begun self.old }
    {
        self.count = self.values.len() - self.base;
    }

    /// The slots that were made become those of a new top; the old top, which is this head, waits below it. Without
    /// memory nothing changes.
    #[inline]
    pub fn enter(&mut self, head: Head) -> Result<(), NoMemory>
        ensures ok { OnOk result (self.new ≡ entered self.old head) }
        ensures err { OnErr result (self.new ≡ self.old) }
    {
        self.links.push(Link {
            head,
            count: self.count,
        })?;
        self.base += self.count;
        self.count = self.values.len() - self.base;
        Ok(())
    }

    /// Drops the slots of the top and what was made for a callee, and goes back to the nearest caller, whose head it
    /// gives; `None` exactly where none waits, and then nothing changes.
    #[inline]
    pub fn leave(&mut self) -> Option<Head>
        ensures none { IsNone result ↔ (self.old.below ≡ []) }
        ensures same { IfNone result (self.new ≡ self.old) }
        ensures some { IfSome result (λ head. Leaves self.old head self.new) }
    {
        match self.links.pop() {
            Some(link) => {
                self.values.truncate(self.base);
                self.base -= link.count;
                self.count = link.count;
                Some(link.head)
            }
            None => None,
        }
    }
}
