//! Modules, an item after another.
ghost use Rattle.std.specs.Prelude.{◌≡◌, ◌+◌, ◌≤◌, ◌<◌, ◌^◌, ℕ, None, Some, Err, IfOk, OnOk};
ghost use Rattle.std.specs.Prelude.{length};
ghost use Rattle.hilti_resolve.specs.Answering.{RefusesAs};
ghost use Rattle.hilti_scope.specs.Items.{placed};
ghost use Rattle.hilti_scope.specs.Scopes.{AreOf};
ghost use Rattle.hilti_link.specs.InTurn.{Answers};
ghost use Rattle.hilti_link.specs.Items.{Seen};
ghost use Rattle.hilti_link.specs.Linking as spec;
ghost use Rattle.hilti_link.specs.Refusals.{first_refusal};
ghost use Rattle.hilti_link.specs.Standings.{ForModule, IsContext, tables_behind_module};

use crate::entries::refuse_entries;
use crate::hooks::announce;
use crate::items::link_item;
use crate::standing::{Context, Standing};
use crate::tables::Tables;
use crate::typed_words::refuse_again;
use crate::versions::{refuse_version, version_of};
use hilti_base::Refusal;
use hilti_module::Module;
use hilti_scope::{Declarations, Modules};
use std::alloc::Global;

/// Modules in word order that are linked, and what they declare. Nothing in their declarations is refused, and they have at
/// most 16 times the items and other parts that one module may have.
#[derive(Drop)]
pub struct Linked {
    modules: Modules,
    declarations: Declarations,
    tables: Tables,
    ghost accepted: { first_refusal modules ≡ None },
    ghost declares: { AreOf modules declarations },
    ghost tabled: { tables ≡ spec.tables_of modules },
    ghost bounded: { spec.modules_count modules ≤ 16777216 },
}

impl Linked {
    /// The modules.
    pub fn modules(&self) -> &Modules
        ensures is { result.now ≡ self.now.modules }
        ensures accepted { first_refusal result.now ≡ None }
        ensures bounded { spec.modules_count result.now ≤ 16777216 }
    {
        &self.modules
    }

    /// What the names in the modules mean.
    pub fn declarations(&self) -> &Declarations
        ensures is { result.now ≡ self.now.declarations }
        ensures of { AreOf self.now.modules result.now }
    {
        &self.declarations
    }

    /// What the modules declare.
    pub fn tables(&self) -> &Tables
        ensures { result.now ≡ spec.tables_of self.now.modules }
    {
        &self.tables
    }

    /// The modules, what the names in them mean, and what they declare. It takes no memory.
    pub fn into_parts(self) -> (Modules, Declarations, Tables)
        ensures modules { result.0 ≡ self.modules }
        ensures accepted { first_refusal result.0 ≡ None }
        ensures declarations { AreOf result.0 result.1 }
        ensures tables { result.2 ≡ spec.tables_of result.0 }
        ensures bounded { spec.modules_count result.0 ≤ 16777216 }
    {
        let Linked {
            modules,
            declarations,
            tables,
        } = self;
        (modules, declarations, tables)
    }
}

/// Links modules. The first refusal answers: in textual order a name that is declared again (code 20), a name that means
/// nothing (21), a hook body that isn't its hook's (24), a type or a form of a field that breaks the rules (25), a type that
/// nests too deep (26), a module's version that is neither 1 nor 2 (27), or a global's literal that isn't of its type (30)
/// or doesn't fit (36); and behind all of these no `packet` in `Main` (22), or an entry of `Main` that isn't as it is asked
/// (23).
pub fn link(alloc: Global, modules: Modules) -> Result<Linked, Refusal>
    requires some { 1 ≤ length modules }
    requires few { length modules ≤ 16 }
    ensures modules { IfOk result (λ linked. linked.modules ≡ modules) }
    ensures declarations { IfOk result (λ linked. AreOf modules linked.declarations) }
    ensures tables { IfOk result (λ linked. linked.tables ≡ spec.tables_of modules) }
    ensures accepted { IfOk result (λ linked. first_refusal modules ≡ None) }
    ensures refusal { RefusesAs result (first_refusal modules) }
{
    let (declarations, tables) = link_all(alloc, &modules)?;
    refuse_entries(&modules)?;
    Ok(Linked {
        modules,
        declarations,
        tables,
    })
}

/// What modules declare, the entries of `Main` aside.
fn link_all(alloc: Global, modules: &Modules) -> Result<(Declarations, Tables), Refusal>
    requires { length (placed modules.now) < 2 ^ 31 }
    ensures declarations { IfOk result (λ all. AreOf modules.now all.0) }
    ensures tables { IfOk result (λ all. all.1 ≡ spec.tables_of modules.now) }
    ensures refusal { Answers result (spec.modules_refusal modules.now) }
{
    let context = Context {
        declarations: Declarations::of(alloc, modules)?,
        hooks: announce(alloc, modules)?,
    };
    let tables = link_modules(alloc, &context, modules)?;
    let Context {
        declarations,
        hooks: _,
    } = context;
    Ok((declarations, tables))
}

/// What modules declare, over what their items see.
fn link_modules(alloc: Global, context: &Context<'_>, modules: &Modules) -> Result<Tables, Refusal>
    requires room { length (placed modules.now) < 2 ^ 31 }
    requires context { IsContext modules.now context.now }
    ensures tables { IfOk result (λ tables. tables ≡ spec.tables_of modules.now) }
    ensures refusal { Answers result (spec.modules_refusal modules.now) }
{
    let mut tables = Tables::new(alloc);
    let mut here = 0;
    for (file, module) in modules.as_slice().iter().enumerate() {
        refuse_head(context, file, module)?;
        link_module(alloc, context, &mut tables, file, here, module)?;
        here += module.items.len();
    }
    Ok(tables)
}

/// Refuses a module at its name, or else at its version.
fn refuse_head(context: &Context<'_>, file: usize, module: &Module) -> Result<(), Refusal>
    ensures { (seen : Seen) → IsContext seen.modules context.now → seen.file ≡ file
        → Answers result (spec.head_refusal seen «module».now) }
{
    refuse_second(context, file, module)?;
    refuse_version(&module.version)
}

/// Refuses a module whose name one in front of it has.
fn refuse_second(context: &Context<'_>, file: usize, module: &Module) -> Result<(), Refusal>
    ensures { (seen : Seen) → IsContext seen.modules context.now → seen.file ≡ file
        → Answers result (spec.named_again seen «module».now) }
{
    let first = context.declarations.module(module.name.bytes.bytes());
    refuse_again(!is_own(file, first), &module.name)
}

/// Whether a module is the first of its name, by the number of that.
fn is_own(file: usize, first: Option<usize>) -> bool
    ensures { result ≡ spec.is_own file first }
{
    match first {
        Some(first) => first == file,
        None => false,
    }
}

/// Adds what a module declares to the tables.
fn link_module(
    alloc: Global,
    context: &Context<'_>,
    tables: &mut Tables,
    file: usize,
    here: usize,
    module: &Module,
) -> Result<(), Refusal>
    requires { here + length «module».now.items < 2 ^ 31 }
    ensures tables { OnOk result (ForModule context.now file here tables.old
        (λ seen. tables.new ≡ tables_behind_module seen «module».now)) }
    ensures refusal { ForModule context.now file here tables.old
        (λ seen. Answers result
        (spec.items_refusal (spec.entering seen «module».now) «module».now.items)) }
{
    let version = version_of(&module.version);
    for (at, item) in module.items.as_slice().iter().enumerate() {
        let standing = Standing {
            owner: module.name.bytes.bytes(),
            version,
            file,
            at,
            here: here + at,
        };
        link_item(alloc, context, &standing, tables, item)?;
    }
    Ok(())
}
