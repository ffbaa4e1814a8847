//! The globals of a program, with the values that they begin with.
ghost use Rattle.std.specs.Prelude.{◌≡◌, ◌≤◌, IfOk, map};
ghost use Rattle.std.specs.List.{All};
ghost use Rattle.std.specs.Option.{option_copied};
ghost use Rattle.hilti_declared.specs.Globals as spec;
ghost use Rattle.hilti_link.specs.Linking.{modules_count};
ghost use Rattle.hilti_resolve.specs.Literals.{literal_refusal};
ghost use Rattle.hilti_resolve.specs.LiteralValues.{literal_value as value_told};
ghost use Rattle.hilti_scope.specs.Scopes.{AreOf, means};

use crate::defaults::default_value;
use crate::sites::{item_at, number_at};
use hilti_base::{NoMemory, Refusal};
use hilti_link::{LinkedGlobal, LinkedGlobals, Modules, Site};
use hilti_module::{Item, Literal};
use hilti_parts::{Global as Variable, Globals};
use hilti_resolve::read_literal;
use hilti_scope::{Declarations, Scope};
use hilti_tree::Tree;
use hilti_types::{TypeTable, ValueType};
use std::alloc::Global;

/// The literal that a global is written with.
fn literal_at(modules: &Modules, site: Site) -> Option<&Literal>
    ensures { option_copied result ≡ spec.literal_at modules.now site }
{
    match item_at(modules, site) {
        Some(
            Item::Global {
                kind: _,
                name: _,
                value,
            },
        ) => value.as_ref(),
        _ => None,
    }
}

/// The value of a literal that is of a type.
fn literal_value(
    scope: &Scope<'_>,
    table: &TypeTable,
    kind: &ValueType,
    literal: &Literal,
) -> Result<Tree, NoMemory>
    requires { literal_refusal table.now (means scope.now) kind.now literal.now ≡ None }
    ensures { IfOk result (λ tree. tree ≡ value_told table.now (means scope.now) literal.now) }
{
    match read_literal(scope, table, kind, literal) {
        Ok(tree) => Ok(tree),
        Err(Refusal::NoMemory) => Err(NoMemory),
        Err(Refusal::At { place: _, code: _ }) => unreachable!(),
    }
}

/// The value that a global begins with.
fn first_value(
    alloc: Global,
    modules: &Modules,
    declarations: &Declarations,
    table: &TypeTable,
    declared: &LinkedGlobal,
) -> Result<Tree, NoMemory>
    requires of { AreOf modules.now declarations.now }
    requires few { modules_count modules.now ≤ 16777216 }
    requires accepted { spec.IsAccepted modules.now table.now declared.now }
    ensures { IfOk result (λ tree. tree ≡ spec.first_value modules.now table.now declared.now) }
{
    match literal_at(modules, declared.site) {
        Some(literal) => {
            let here = number_at(modules, declared.site);
            let scope = Scope::new(alloc, declarations, declared.site.file, here);
            literal_value(&scope, table, &declared.kind, literal)
        }
        None => default_value(alloc, &declared.kind),
    }
}

/// The globals, in their order.
pub fn make_globals(
    alloc: Global,
    modules: &Modules,
    declarations: &Declarations,
    table: &TypeTable,
    declared: LinkedGlobals,
) -> Result<Globals, NoMemory>
    requires of { AreOf modules.now declarations.now }
    requires few { modules_count modules.now ≤ 16777216 }
    requires accepted { All (spec.IsAccepted modules.now table.now) declared }
    ensures { IfOk result (λ globals. globals ≡ map (spec.global_of modules.now table.now) declared) }
{
    let mut globals = Globals::new(alloc);
    for global in declared.into_vec() {
        let first = first_value(alloc, modules, declarations, table, &global)?;
        globals.push(Variable {
            name: global.name,
            kind: global.kind,
            first,
        })?;
    }
    Ok(globals)
}
