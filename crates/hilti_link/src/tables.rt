//! What modules declare, by their numbers.
ghost use Rattle.std.specs.Prelude.{◌≡◌, OnOk};
ghost use Rattle.hilti_link.specs.Items.{with_type};
ghost use Rattle.hilti_link.specs.Linking.{no_tables};

use crate::versions::Version;
use hilti_base::{Blob, Collection, NoMemory, Place};
use hilti_types::{Declared, TypeTable, ValueType, ValueTypes};
use std::alloc::Global;

/// Where something is declared: the module's number, the item's number in it, and the place of its name.
#[derive(Clone, Copy, Debug, PartialEq, Eq)]
pub struct Site {
    pub file: usize,
    pub item: usize,
    pub place: Place,
}

/// A global. Its name is `Module::name`, as all names here.
#[derive(Debug, Drop)]
pub struct LinkedGlobal {
    pub site: Site,
    pub name: Blob,
    pub kind: ValueType,
}

/// Globals in textual order.
pub type LinkedGlobals = Collection<LinkedGlobal>;

/// A function or a hook body: the version of its module, the types of its parameters and of its locals behind them, its
/// result, and the number of the hook whose body it is.
#[derive(Debug, Drop)]
pub struct LinkedFunction {
    pub site: Site,
    pub name: Blob,
    pub version: Version,
    pub parameters: usize,
    pub slots: ValueTypes,
    pub result: Option<ValueType>,
    pub hook: Option<u32>,
}

/// Functions and hook bodies in textual order.
pub type LinkedFunctions = Collection<LinkedFunction>;

/// A hook, with the types of its parameters.
#[derive(Debug, Drop)]
pub struct LinkedHook {
    pub site: Site,
    pub name: Blob,
    pub parameters: ValueTypes,
}

/// Hooks in textual order.
pub type LinkedHooks = Collection<LinkedHook>;

/// An exception, with the number of its parent.
#[derive(Debug, Drop)]
pub struct LinkedException {
    pub site: Site,
    pub name: Blob,
    pub parent: u32,
}

/// Exceptions in textual order; the first has number 7, behind the built-in ones.
pub type LinkedExceptions = Collection<LinkedException>;

/// What some items declare, each list numbered in textual order. A type's site stands at its number.
#[derive(Debug, Drop)]
pub struct Tables {
    pub types: TypeTable,
    pub sites: Collection<Site>,
    pub globals: LinkedGlobals,
    pub functions: LinkedFunctions,
    pub hooks: LinkedHooks,
    pub exceptions: LinkedExceptions,
}

impl Tables {
    /// Nothing.
    pub fn new(alloc: Global) -> Tables
        ensures { result ≡ no_tables }
    {
        Tables {
            types: TypeTable::new(alloc),
            sites: Collection::new(alloc),
            globals: LinkedGlobals::new(alloc),
            functions: LinkedFunctions::new(alloc),
            hooks: LinkedHooks::new(alloc),
            exceptions: LinkedExceptions::new(alloc),
        }
    }

    /// Adds a type at the end of the table. Without memory the tables are only dropped.
    pub(crate) fn add_type(&mut self, site: Site, declared: Declared) -> Result<(), NoMemory>
        ensures { OnOk result (self.new ≡ with_type self.old site declared) }
    {
        self.types.push(declared)?;
        self.sites.push(site)
    }
}
