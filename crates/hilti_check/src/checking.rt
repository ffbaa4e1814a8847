//! The bodies of all functions and hooks, in textual order, and the program that they make.
ghost use Rattle.std.specs.Prelude.{◌≡◌, Ok, IfOk, IsSome};
ghost use Rattle.hilti_bodies.specs.Blocks.{read_body as body_told};
ghost use Rattle.hilti_code.specs.Runnable.{IsTypedProgram};
ghost use Rattle.hilti_declared.specs.Sites as sites;
ghost use Rattle.hilti_link.specs.Linking.{tables_of};
ghost use Rattle.hilti_operands.specs.Answers.{Told};
ghost use Rattle.hilti_check.specs.Checking as spec;

use crate::built::first_unbuilt;
use crate::laws::checked_are_typed;
use crate::scopes::scope_at;
use hilti_base::{Collection, Refusal};
use hilti_bodies::read_body;
use hilti_declared::{body_at, declare};
use hilti_link::{Linked, LinkedFunction};
use hilti_module::{Body, Parameter};
use hilti_operands::refusal;
use hilti_parts::Blocks;
use hilti_program::Program;
use std::alloc::Global;

/// The code of an instruction that isn't built.
const NOT_BUILT: u32 = 60;

/// The blocks of a function or a hook body with these parameters.
fn read_blocks(
    alloc: Global,
    linked: &Linked,
    function: &LinkedFunction,
    parameters: &[Parameter],
    body: &Body,
) -> Result<Blocks, Refusal>
    requires { IsSome (sites.bodied_at linked.now.modules function.now.site) }
    ensures { Told result (body_told (spec.meaning_inside linked.now.modules function.now.site
        (record { parameters = parameters.now; body = body.now })) (tables_of linked.now.modules)
        function.now body.now) }
{
    let scope = scope_at(
        alloc,
        linked,
        function.site,
        parameters,
        body.locals.as_slice(),
    )?;
    read_body(alloc, &scope, linked.tables(), function, body)
}

/// The blocks of a function or a hook body.
fn blocks_of(alloc: Global, linked: &Linked, function: &LinkedFunction) -> Result<Blocks, Refusal>
    ensures { Told result (spec.blocks_of linked.now.modules (tables_of linked.now.modules)
        function.now) }
{
    match body_at(linked.modules().as_slice(), function.site) {
        Some((parameters, body)) => read_blocks(alloc, linked, function, parameters, body),
        None => Ok(Blocks::new(alloc)),
    }
}

/// The blocks of all functions and hook bodies in textual order, or the first refusal.
fn all_blocks(alloc: Global, linked: &Linked) -> Result<Collection<Blocks>, Refusal>
    ensures { Told result (spec.all_blocks linked.now.modules (tables_of linked.now.modules)) }
{
    let functions = linked.tables().functions.as_slice();
    let mut all = Collection::new(alloc);
    for function in functions {
        match blocks_of(alloc, linked, function) {
            Ok(blocks) => all.push(blocks)?,
            Err(refusal) => return Err(refusal),
        }
    }
    Ok(all)
}

/// The program of linked modules with the blocks of their bodies, or the refusal of the first instruction that isn't
/// built.
fn program_of(alloc: Global, linked: Linked, blocks: Collection<Blocks>) -> Result<Program, Refusal>
    requires { spec.all_blocks linked.modules (tables_of linked.modules) ≡ Ok blocks }
    ensures is { Told result (spec.checked linked.modules) }
    ensures typed { IfOk result IsTypedProgram }
{
    checked_are_typed();
    match first_unbuilt(alloc, &linked, blocks.as_slice())? {
        Some(place) => Err(refusal(place, NOT_BUILT)),
        None => {
            let parts = declare(alloc, linked, blocks.into_vec())?;
            Ok(Program::new(parts))
        }
    }
}

/// Checks linked modules. The first refusal answers, in textual order over the bodies of functions and hooks: its code is
/// 20 to 39, and its place that of the fault. Behind all of them the first instruction that isn't built yet is refused at
/// its mnemonic with code 60. Else the program is given; its functions are numbered in textual order.
pub fn check(alloc: Global, linked: Linked) -> Result<Program, Refusal>
    ensures is { Told result (spec.checked linked.modules) }
    ensures typed { IfOk result IsTypedProgram }
{
    match all_blocks(alloc, &linked) {
        Ok(blocks) => program_of(alloc, linked, blocks),
        Err(refusal) => Err(refusal),
    }
}
