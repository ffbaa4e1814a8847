//! Items where they stand.
ghost use Rattle.std.specs.Prelude.{◌≡◌, ◌++◌, ◌+◌, ◌<◌, ◌^◌, length, IfOk, OnOk};
ghost use Rattle.hilti_scope.specs.Scopes.{AreOf};
ghost use Rattle.hilti_link.specs.InTurn.{Answers};
ghost use Rattle.hilti_link.specs.Items as spec;
ghost use Rattle.hilti_link.specs.Seeing.{qualified};
ghost use Rattle.hilti_link.specs.Standings.{ForStanding, HidesAll, SeesPlain, SeesBehind};
ghost use Rattle.hilti_link.specs.Standings.{WhereSeen};
ghost use Rattle.hilti_link.specs.TypedWords.{names_of};

use crate::hooks::Announced;
use crate::tables::Site;
use crate::typed_words::refuse_again;
use crate::versions::Version;
use hilti_base::{Blob, NoMemory, Refusal};
use hilti_module::{Name, Parameter, Word};
use hilti_scope::{Declarations, Scope, is_built_in};
use std::alloc::Global;

/// What all items of some modules see: what the modules declare, and their hooks.
#[derive(Drop)]
pub struct Context<'a> {
    pub declarations: Declarations,
    pub hooks: Vec<Announced<'a>>,
}

/// An item where it stands: the name, the version and the number of its module, and its number in it and among all items.
#[derive(Clone, Copy, Debug)]
pub struct Standing<'a> {
    pub owner: &'a [u8],
    pub version: Version,
    pub file: usize,
    pub at: usize,
    pub here: usize,
}

impl<'a> Standing<'a> {
    /// What is seen from the item, without parameters and locals.
    pub fn scope<'d>(&self, alloc: Global, declarations: &'d Declarations) -> Scope<'d>
        ensures { ForStanding self.now (λ seen. AreOf seen.modules declarations.now → SeesPlain seen
            result) }
    {
        Scope::new(alloc, declarations, self.file, self.here)
    }

    /// What is seen from the item behind these parameters and locals.
    pub fn scope_behind<'d>(
        &self,
        alloc: Global,
        declarations: &'d Declarations,
        parameters: &[Parameter],
        locals: &[Parameter],
    ) -> Result<Scope<'d>, NoMemory>
        ensures { IfOk result (λ scope. ForStanding self.now
            (λ seen. AreOf seen.modules declarations.now
            → SeesBehind seen (names_of (parameters.now ++ locals.now)) scope)) }
    {
        let mut scope = self.scope(alloc, declarations);
        hide_all(&mut scope, parameters, 0)?;
        hide_all(&mut scope, locals, parameters.len())?;
        Ok(scope)
    }

    /// Where the item is declared.
    pub fn site(&self, name: &Word) -> Site
        ensures { ForStanding self.now (λ seen. result ≡ spec.site_of seen name.now) }
    {
        Site {
            file: self.file,
            item: self.at,
            place: name.place,
        }
    }

    /// A name of the item's module, as it is shown.
    pub fn shown(&self, alloc: Global, name: &Word) -> Result<Blob, NoMemory>
        ensures { IfOk result (λ shown. ForStanding self.now
            (λ seen. shown ≡ qualified seen.owner name.now.bytes)) }
    {
        join_names(alloc, self.owner, name.bytes.bytes())
    }

    /// A name of a hook body, as it is shown.
    pub fn shown_name(&self, alloc: Global, name: &Name) -> Result<Blob, NoMemory>
        ensures { IfOk result (λ shown. ForStanding self.now
            (λ seen. shown ≡ spec.shown seen.owner name.now)) }
    {
        match &name.second {
            Some(second) => join_names(alloc, name.first.bytes.bytes(), second.bytes.bytes()),
            None => self.shown(alloc, &name.first),
        }
    }

    /// Refuses a declared name that the module declares before, or that of a built-in exception.
    pub fn refuse_declared(&self, scope: &Scope<'_>, name: &Word) -> Result<(), Refusal>
        ensures { WhereSeen scope.now (λ seen. Answers result (spec.declared_again seen name.now)) }
    {
        let word = name.bytes.bytes();
        refuse_again(!scope.comes_first(word) || is_built_in(word), name)
    }
}

/// Two names with `::` between them.
fn join_names(alloc: Global, owner: &[u8], name: &[u8]) -> Result<Blob, NoMemory>
    ensures { IfOk result (λ joined. joined ≡ qualified owner.now name.now) }
{
    let mut joined = Blob::of(alloc, owner)?;
    joined.append(b"::")?;
    joined.append(name)?;
    Ok(joined)
}

/// Adds the words of parameters or locals to a scope, numbered from `first`, which is the number of those in front.
pub fn hide_all(scope: &mut Scope<'_>, words: &[Parameter], first: usize) -> Result<(), NoMemory>
    requires { first + length words.now < 2 ^ 64 }
    ensures { OnOk result (HidesAll words.now first scope.old scope.new) }
{
    for (at, word) in words.iter().enumerate() {
        scope.hide(word.name.bytes.bytes(), first + at)?;
    }
    Ok(())
}
