//! What the items of a set of modules declare.
ghost use Rattle.std.specs.Prelude.{◌≡◌, ◌↔◌, IsTrue, ◌+◌, ◌-◌, ◌<◌, ◌^◌, ◌++◌, ℕ, cond, List, []};
ghost use Rattle.std.specs.Prelude.{◌∷◌, length, None, Some, IfOk, OnOk};
ghost use Rattle.std.specs.Option.{option_copied, option_or};
ghost use Rattle.hilti_module.specs.declared.module.Module.{Module as AModule};
ghost use Rattle.hilti_scope.specs.Items.{placed, placed_in, declared_word, is_word, Placed};
ghost use Rattle.hilti_scope.specs.FirstPlaces.{place_of};
ghost use Rattle.hilti_scope.specs.Scopes.{AreOf, place_in, seen};
ghost use Rattle.hilti_scope.specs.Numbers.{AreBelow, meaning_with, type_with, numbers_with};
ghost use Rattle.hilti_scope.specs.Numbers.{numbers_with_type};
ghost use Rattle.hilti_scope.specs.Gathered.{HasRoom, IsBehind, IsGathered, AreNames, KeepsNames};

use crate::first_places::FirstPlaces;
use crate::meaning::Meaning;
use hilti_base::{Collection, NoMemory};
use hilti_module::{Item, Module, Shape, Word};
use std::alloc::Global;

/// Modules in word order.
pub type Modules = Collection<Module>;

/// What the names of a set of modules mean. Modules and items are numbered from 0 in textual order.
#[derive(Drop)]
pub struct Declarations {
    /// The first module of each name.
    modules: FirstPlaces,
    /// By module, the first item that declares each name.
    declared: Collection<FirstPlaces>,
    /// By item, what it declares.
    meanings: Collection<Meaning>,
}

/// Whether the modules have so few items that all can be numbered: fewer than 2^31.
pub fn can_be_numbered(modules: &Modules) -> bool
    ensures { IsTrue result ↔ (length (placed modules.now) < 2 ^ 31) }
{
    let mut room: usize = 0x7fff_ffff;
    for next in modules.as_slice() {
        let count = next.items.len();
        if count > room {
            return false;
        }
        room -= count;
    }
    true
}

impl Declarations {
    /// The declarations of some modules. Without memory there are none.
    pub fn of(alloc: Global, modules: &Modules) -> Result<Declarations, NoMemory>
        requires { length (placed modules.now) < 2 ^ 31 }
        ensures { IfOk result (λ declarations. AreOf modules.now declarations) }
    {
        let mut gathering = Gathering::new(alloc);
        for next in modules.as_slice() {
            gathering.add_module(alloc, next)?;
        }
        let Gathering {
            declarations,
            numbers: _numbers,
        } = gathering;
        Ok(declarations)
    }

    /// The number of the first module of a name.
    pub fn module(&self, word: &[u8]) -> Option<usize>
        ensures { result ≡ place_of self.now.modules word.now }
    {
        self.modules.place(word)
    }

    /// The first item of a module that declares a name.
    pub(crate) fn place(&self, file: usize, word: &[u8]) -> Option<usize>
        ensures { result ≡ place_in self.now file word.now }
    {
        let names = self.declared.get(file)?;
        names.place(word)
    }

    /// What a name that a module declares means to the item `here`; `None` where the module declares no such name.
    pub(crate) fn seen(&self, here: usize, file: usize, word: &[u8]) -> Option<Meaning>
        ensures { result ≡ seen self.now here file word.now }
    {
        let at = self.place(file, word)?;
        let meaning = self.meanings.get(at)?;
        Some(meaning.seen_from(here, at))
    }
}

/// The numbers that the next items of each kind get.
#[derive(Clone, Copy, Debug)]
struct Numbers {
    tabled: u32,
    exception: u32,
    global: u32,
    function: u32,
    hook: u32,
}

impl Numbers {
    /// Gives an item its number.
    fn take(&mut self, item: &Item) -> Meaning
        requires { AreBelow (2 ^ 32 - 1) self.old }
        ensures meaning { result ≡ meaning_with self.old item.now }
        ensures numbers { self.new ≡ numbers_with self.old item.now }
    {
        match item {
            Item::Type { name: _, shape } => self.take_type(shape),
            Item::Global { .. } => Meaning::Global {
                n: take_number(&mut self.global),
            },
            Item::Hook { .. } => Meaning::Hook {
                n: take_number(&mut self.hook),
            },
            Item::HookBody { .. } => Meaning::Function {
                n: take_number(&mut self.function),
            },
            Item::Function { .. } => Meaning::Function {
                n: take_number(&mut self.function),
            },
        }
    }

    /// Gives a type its number.
    fn take_type(&mut self, shape: &Shape) -> Meaning
        requires { AreBelow (2 ^ 32 - 1) self.old }
        ensures meaning { result ≡ type_with self.old shape.now }
        ensures numbers { self.new ≡ numbers_with_type self.old shape.now }
    {
        match shape {
            Shape::Struct { .. } => Meaning::Struct {
                n: take_number(&mut self.tabled),
            },
            Shape::Enum { .. } => Meaning::Enum {
                n: take_number(&mut self.tabled),
            },
            Shape::Overlay { .. } => Meaning::Overlay {
                n: take_number(&mut self.tabled),
            },
            Shape::Exception { .. } => Meaning::Exception {
                n: take_number(&mut self.exception),
            },
        }
    }
}

/// The next number; one more is next behind it.
fn take_number(next: &mut u32) -> u32
    requires { next.old < 2 ^ 32 - 1 }
    ensures number { result ≡ next.old }
    ensures next { next.new ≡ next.old + 1 }
{
    let number = *next;
    *next = number + 1;
    number
}

/// The name that an item declares; a hook body declares none.
fn name_of(item: &Item) -> Option<&Word>
    ensures { option_copied result ≡ declared_word item.now }
{
    match item {
        Item::Type { name, shape: _ } => Some(name),
        Item::Global {
            kind: _,
            name,
            value: _,
        } => Some(name),
        Item::Hook {
            name,
            parameters: _,
        } => Some(name),
        Item::HookBody { .. } => None,
        Item::Function {
            result: _,
            name,
            parameters: _,
            body: _,
        } => Some(name),
    }
}

/// The declarations of the modules that were read so far.
#[derive(Drop)]
struct Gathering {
    declarations: Declarations,
    numbers: Numbers,
}

impl Gathering {
    /// Those of no module.
    fn new(alloc: Global) -> Gathering
        ensures { IsGathered [] result }
    {
        Gathering {
            declarations: Declarations {
                modules: FirstPlaces::new(alloc),
                declared: Collection::new(alloc),
                meanings: Collection::new(alloc),
            },
            numbers: Numbers {
                tabled: 0,
                exception: 7,
                global: 0,
                function: 0,
                hook: 0,
            },
        }
    }

    /// Adds a module behind those that were read.
    fn add_module(&mut self, alloc: Global, next: &Module) -> Result<(), NoMemory>
        requires { HasRoom (length next.now.items) self.old }
        ensures { OnOk result ((before : List AModule) → IsGathered before self.old → IsGathered
            (before ++ next.now ∷ []) self.new) }
    {
        let mut names = FirstPlaces::new(alloc);
        self.add_items(&mut names, next.items.as_slice())?;
        let declarations = &mut self.declarations;
        let file = declarations.declared.len();
        declarations.modules.note(next.name.bytes.bytes(), file)?;
        declarations.declared.push(names)?;
        Ok(())
    }

    /// Adds the items of a module, whose names are noted in `names`.
    fn add_items(&mut self, names: &mut FirstPlaces, items: &[Item]) -> Result<(), NoMemory>
        requires { HasRoom (length items.now) self.old }
        ensures behind { OnOk result ((before : List Placed) (file : ℕ) → IsBehind before self.old
            → IsBehind
            (before ++ placed_in file items.now) self.new) }
        ensures names { OnOk result ((before : List Placed) (file : ℕ) → IsBehind before self.old
            → AreNames
            file before names.old → AreNames file (before ++ placed_in file items.now) names.new) }
        ensures kept { OnOk result (KeepsNames self.old self.new) }
    {
        for item in items {
            self.add_item(names, item)?;
        }
        Ok(())
    }

    /// Adds an item of a module, whose names are noted in `names`.
    fn add_item(&mut self, names: &mut FirstPlaces, item: &Item) -> Result<(), NoMemory>
        requires { HasRoom 1 self.old }
        ensures behind { OnOk result ((before : List Placed) (file : ℕ) → IsBehind before self.old
            → IsBehind
            (before ++ placed_in file (item.now ∷ [])) self.new) }
        ensures names { OnOk result ((before : List Placed) (file : ℕ) → IsBehind before self.old
            → AreNames
            file before names.old → AreNames file (before ++ placed_in file (item.now ∷ []))
            names.new) }
        ensures kept { OnOk result (KeepsNames self.old self.new) }
    {
        let at = self.declarations.meanings.len();
        note_name(names, item, at)?;
        let meaning = self.numbers.take(item);
        self.declarations.meanings.push(meaning)?;
        Ok(())
    }
}

/// Notes the name that an item declares, if it declares one.
fn note_name(names: &mut FirstPlaces, item: &Item, at: usize) -> Result<(), NoMemory>
    ensures { OnOk result ((bytes : List ℕ) → place_of names.new bytes ≡ option_or
        (place_of names.old bytes) (cond (is_word bytes (declared_word item.now)) (Some at) None)) }
{
    match name_of(item) {
        Some(name) => Ok(names.note(name.bytes.bytes(), at)?),
        None => Ok(()),
    }
}
