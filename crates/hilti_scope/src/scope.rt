//! The meanings of names, as they are seen from an item of a module.
ghost use Rattle.std.specs.Prelude.{◌≡◌, ℕ, List, [], bytes_eq, OnOk, OnErr};
ghost use Rattle.std.specs.List.{position};
ghost use Rattle.hilti_module.specs.declared.module.Module.{Module as AModule};
ghost use Rattle.hilti_scope.specs.Meanings as spec;
ghost use Rattle.hilti_scope.specs.Scopes.{means, slot_in, comes_first_in, plain_means};
ghost use Rattle.hilti_scope.specs.Scopes.{means_there, AreOf, Hides, Sees};

use crate::declarations::Declarations;
use crate::first_places::FirstPlaces;
use crate::meaning::Meaning;
use hilti_base::NoMemory;
use hilti_module::Name;
use std::alloc::Global;

/// What names mean, seen from one item with its parameters and locals.
#[derive(Drop)]
pub struct Scope<'a> {
    declarations: &'a Declarations,
    /// The number of the item's module.
    file: usize,
    /// The number of the item over all modules.
    here: usize,
    /// The parameters and locals, with their numbers.
    locals: FirstPlaces,
}

impl<'a> Scope<'a> {
    /// The scope of the item `here` of the module `file`, with no parameters or locals yet. It takes no memory.
    pub fn new(alloc: Global, declarations: &'a Declarations, file: usize, here: usize) -> Scope<'a>
        ensures { (modules : List AModule) → AreOf modules declarations.now
            → Sees modules file here [] result }
    {
        Scope {
            declarations,
            file,
            here,
            locals: FirstPlaces::new(alloc),
        }
    }

    /// Adds the next parameter or local, which hides the declarations of its name. Its number is that of those in front
    /// of it. Without memory nothing changes.
    pub fn hide(&mut self, word: &[u8], slot: usize) -> Result<(), NoMemory>
        ensures hides { OnOk result (Hides word.now slot self.old self.new) }
        ensures err { OnErr result (self.new ≡ self.old) }
    {
        self.locals.note(word, slot)?;
        Ok(())
    }

    /// The number of the parameter or local of a name.
    pub fn slot(&self, word: &[u8]) -> Option<usize>
        ensures { result ≡ slot_in self.now word.now }
    {
        self.locals.place(word)
    }

    /// Whether the item is the first of its module that declares a name.
    pub fn comes_first(&self, word: &[u8]) -> bool
        ensures { result ≡ comes_first_in self.now word.now }
    {
        match self.declarations.place(self.file, word) {
            Some(at) => at == self.here,
            None => false,
        }
    }

    /// What a name means.
    pub fn meaning(&self, name: &Name) -> Meaning
        ensures { result ≡ means self.now name.now }
    {
        match &name.second {
            Some(second) => {
                let file = self.declarations.module(name.first.bytes.bytes());
                self.meaning_in_module(file, second.bytes.bytes())
            }
            None => self.plain_meaning(name.first.bytes.bytes()),
        }
    }

    /// What a name without `::` means.
    fn plain_meaning(&self, word: &[u8]) -> Meaning
        ensures { result ≡ plain_means self.now word.now }
    {
        if let Some(slot) = self.slot(word) {
            return Meaning::Local { slot };
        }
        match self.declarations.seen(self.here, self.file, word) {
            Some(meaning) => meaning,
            None => built_in(word),
        }
    }

    /// What a name in a module means; nothing, where there is no such module.
    fn meaning_in_module(&self, file: Option<usize>, word: &[u8]) -> Meaning
        ensures { result ≡ means_there self.now file word.now }
    {
        match file {
            Some(file) => self
                .declarations
                .seen(self.here, file, word)
                .unwrap_or(Meaning::Nothing),
            None => Meaning::Nothing,
        }
    }
}

/// Whether a word is the name of a built-in exception.
pub fn is_built_in(word: &[u8]) -> bool
    ensures { result ≡ spec.is_built_in word.now }
{
    built_in_number(word).is_some()
}

/// The built-in exception of a name, or nothing.
fn built_in(word: &[u8]) -> Meaning
    ensures { result ≡ spec.built_in word.now }
{
    match built_in_number(word) {
        Some(n) => Meaning::Exception { n },
        None => Meaning::Nothing,
    }
}

/// The number of the built-in exception of a name.
fn built_in_number(word: &[u8]) -> Option<u32>
    ensures { result ≡ position (λ name. bytes_eq name word.now) spec.built_in_names }
{
    if is_same(b"Exception", word) {
        Some(0)
    } else if is_same(b"ValueError", word) {
        Some(1)
    } else if is_same(b"IndexError", word) {
        Some(2)
    } else if is_same(b"DivisionByZero", word) {
        Some(3)
    } else if is_same(b"NullReference", word) {
        Some(4)
    } else if is_same(b"UnsetField", word) {
        Some(5)
    } else if is_same(b"StaleIterator", word) {
        Some(6)
    } else {
        None
    }
}

/// Whether two words are the same.
fn is_same(name: &[u8], word: &[u8]) -> bool
    ensures { result ≡ bytes_eq name.now word.now }
{
    name == word
}
