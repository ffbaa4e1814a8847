//! The table of declared types.
ghost use Rattle.std.specs.Prelude.{◌≡◌, ◌↔◌, [], ◌∷◌, ◌++◌, length, slice_get, false, IsTrue};
ghost use Rattle.std.specs.Prelude.{OnOk, OnErr};
ghost use Rattle.std.specs.Option.{option_copied, unwrap_or};
ghost use Rattle.hilti_types.specs.Depths.{as_u32, depths};
ghost use Rattle.hilti_types.specs.Sendable.{sendables};

use crate::declared::Declared;
use crate::depths::declared_depth;
use crate::sendability::declared_is_sendable;
use hilti_base::{Collection, NoMemory};
use std::alloc::Global;
use std::marker::Model;

/// What is told of a declared type: whether it is sendable, and how deep it nests.
#[derive(Clone, Copy, Debug, PartialEq, Eq)]
struct Told {
    is_sendable: bool,
    depth: u32,
}

/// The declared types in textual order, which contracts see as their list. Each `n` in a type is a place in it. A type
/// names only types before it, and is judged once, as it is added: the table keeps whether it is sendable and how deep
/// it nests.
#[derive(Debug, Drop)]
pub struct TypeTable {
    types: Collection<Declared>,
    told: Vec<Told>,
}

impl Model for TypeTable {
    ghost use Rattle.std.specs.Prelude.{List};
    ghost use Rattle.std.specs.Coded.{codes};
    ghost use Rattle.hilti_types.specs.Told.{AreTold};
    ghost use Rattle.hilti_types.specs.declared.declared.Declared.{Declared};
    ghost use Rattle.hilti_types.specs.contracts.value_type.Inner as objects;
    ghost use Rattle.hilti_types.specs.contracts.value_type.ValueType as kinds;

    ghost Value = { List Declared };

    ghost coded = { Prim.hlevel (codes, kinds.the_row.coded, objects.the_row.coded) };

    ghost view = { λ table. table.types };

    ghost invariant = { λ table. AreTold table.types table.told.items };
}

impl TypeTable {
    /// An empty table. It takes no memory yet.
    pub fn new(alloc: Global) -> TypeTable
        ensures { result ≡ [] }
    {
        TypeTable {
            types: Collection::new(alloc),
            told: Vec::new(alloc),
        }
    }

    /// Adds a type at the end, in time linear in it. Without memory nothing changes, and the type is dropped.
    pub fn push(&mut self, item: Declared) -> Result<(), NoMemory>
        ensures ok { OnOk result (self.new ≡ self.old ++ item ∷ []) }
        ensures err { OnErr result (self.new ≡ self.old) }
    {
        let told = Told {
            is_sendable: declared_is_sendable(self, &item),
            depth: declared_depth(self, &item),
        };
        self.told.push(told)?;
        if self.types.push(item).is_err() {
            self.told.pop();
            return Err(NoMemory);
        }
        Ok(())
    }

    pub fn len(&self) -> usize
        ensures { result ≡ length self.now }
    {
        self.types.len()
    }

    pub fn is_empty(&self) -> bool
        ensures { IsTrue result ↔ (self.now ≡ []) }
    {
        self.types.is_empty()
    }

    /// The type at a place, counted from 0; `None` exactly past the end.
    pub fn get(&self, at: usize) -> Option<&Declared>
        ensures { option_copied result ≡ slice_get self.now at }
    {
        self.types.get(at)
    }

    pub fn as_slice(&self) -> &[Declared]
        ensures { result.now ≡ self.now }
    {
        self.types.as_slice()
    }

    /// The types in order. It takes no memory.
    pub fn into_vec(self) -> Vec<Declared>
        ensures { result.items ≡ self }
    {
        let TypeTable { types, told: _ } = self;
        types.into_vec()
    }

    /// Whether the type at a place is sendable; none is past the end. It takes constant time.
    pub fn is_sendable_at(&self, at: usize) -> bool
        ensures { result ≡ unwrap_or (slice_get (sendables self.now) at) false }
    {
        match self.told.get(at) {
            Some(told) => told.is_sendable,
            None => false,
        }
    }

    /// How deep the type at a place nests, where 4,294,967,295 stands for all that is deeper; 1 past the end. It takes
    /// constant time.
    pub fn depth_at(&self, at: usize) -> u32
        ensures { result ≡ as_u32 (unwrap_or (slice_get (depths self.now) at) 1) }
    {
        match self.told.get(at) {
            Some(told) => told.depth,
            None => 1,
        }
    }
}
