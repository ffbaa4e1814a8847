ghost use Rattle.std.specs.Prelude.{◌≡◌, ◌<◌, length, replicate, slice_get, slice_set, Some, None};
ghost use Rattle.std.specs.Prelude.{IfOk};
ghost use Rattle.std.specs.Option.{option_copied};

use hilti_base::NoMemory;
use std::alloc::Global;
use std::marker::Model;
use std::mem;

/// Fields in order, each with an item or unset. Contracts see the list of the fields.
#[derive(Debug, Drop)]
pub struct Record<T> {
    fields: Vec<Option<T>>,
}

impl<T> Model for Record<T> {
    ghost use Rattle.std.specs.Prelude.{List, Option};
    ghost use Rattle.std.specs.Coded.{coded_list, coded_option};

    ghost Value = { List (Option T) };

    ghost coded = { coded_list (coded_option T.code) };

    ghost view = { λ a. a.fields.items };
}

impl<T: Drop> Record<T> {
    /// A record of so many fields, all unset.
    pub fn new(alloc: Global, fields: usize) -> Result<Record<T>, NoMemory>
        ensures { IfOk result (λ a. a ≡ replicate fields None) }
    {
        let mut unset = Vec::with_capacity(alloc, fields)?;
        for _ in 0..fields {
            unset.push(None)?;
        }
        Ok(Record { fields: unset })
    }

    /// Gives a field an item. An item that was there is dropped.
    pub fn set(&mut self, at: usize, item: T)
        requires { at < length self.old }
        ensures { self.new ≡ slice_set self.old at (Some item) }
    {
        self.fields[at] = Some(item);
    }

    /// Gives a field other content, an item or none, and returns what it had before.
    pub fn replace(&mut self, at: usize, content: Option<T>) -> Option<T>
        requires { at < length self.old }
        ensures before { slice_get self.old at ≡ Some result }
        ensures after { self.new ≡ slice_set self.old at content }
    {
        mem::replace(&mut self.fields[at], content)
    }

    /// Makes a field unset. An item that was there is dropped.
    pub fn unset(&mut self, at: usize)
        requires { at < length self.old }
        ensures { self.new ≡ slice_set self.old at None }
    {
        self.fields[at] = None;
    }
}

impl<T> Record<T> {
    /// The number of fields.
    pub fn len(&self) -> usize
        ensures { result ≡ length self.now }
    {
        self.fields.len()
    }

    /// The item of a field; `None` exactly where the field is unset.
    pub fn get(&self, at: usize) -> Option<&T>
        requires { at < length self.now }
        ensures { slice_get self.now at ≡ Some (option_copied result) }
    {
        self.fields[at].as_ref()
    }
}
