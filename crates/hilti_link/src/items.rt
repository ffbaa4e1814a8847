//! Items, and what they declare.
ghost use Rattle.std.specs.Prelude.{◌≡◌, Option, OnOk, IfOk};
ghost use Rattle.std.specs.Option.{option_map};
ghost use Rattle.hilti_module.specs.declared.types.Number.{Number};
ghost use Rattle.hilti_link.specs.InTurn.{Answers};
ghost use Rattle.hilti_link.specs.Items as spec;
ghost use Rattle.hilti_link.specs.Seeing.{type_at};
ghost use Rattle.hilti_link.specs.Shapes.{shape_refusal};
ghost use Rattle.hilti_link.specs.Standings.{Adds, AnswersFor};
ghost use Rattle.hilti_link.specs.Views.{view_in};

use crate::hooks::read_hook;
use crate::shapes::{read_constants, read_fields, read_members, read_parent, refuse_depth};
use crate::standing::{Context, Standing};
use crate::tables::{LinkedException, LinkedFunction, LinkedGlobal, LinkedHook, Site, Tables};
use crate::typed_words::{Role, read_slots, read_words};
use hilti_base::{Blob, Refusal};
use hilti_module::{Body, Item, Literal, Name, Parameter, Parameters, Shape, TypeText, Word};
use hilti_resolve::{check_literal, read_type};
use hilti_scope::Scope;
use hilti_types::{Declared, ValueType, ValueTypes};
use std::alloc::Global;

/// Adds what an item declares to the tables, or refuses it at its first fault. After a refusal the tables are only dropped.
pub fn link_item(
    alloc: Global,
    context: &Context<'_>,
    standing: &Standing<'_>,
    tables: &mut Tables,
    item: &Item,
) -> Result<(), Refusal>
    ensures tables { OnOk result (Adds context.now standing.now tables.old item.now tables.new) }
    ensures refusal { AnswersFor context.now standing.now tables.old item.now result }
{
    match item {
        Item::Type { name, shape } => link_type(alloc, context, standing, tables, name, shape),
        Item::Global { kind, name, value } => {
            link_global(alloc, context, standing, tables, kind, name, value)
        }
        Item::Hook { name, parameters } => link_hook(
            alloc, context, standing, tables, name, parameters,
        ),
        Item::HookBody {
            name,
            parameters,
            priority: _,
            body,
        } => link_hook_body(alloc, context, standing, tables, name, parameters, body),
        Item::Function {
            result,
            name,
            parameters,
            body,
        } => link_function(
            alloc, context, standing, tables, result, name, parameters, body,
        ),
    }
}

/// A declared type.
fn link_type(
    alloc: Global,
    context: &Context<'_>,
    standing: &Standing<'_>,
    tables: &mut Tables,
    name: &Word,
    shape: &Shape,
) -> Result<(), Refusal>
    ensures tables { OnOk result
        (Adds context.now standing.now tables.old (Item.Type name.now shape.now)
        tables.new) }
    ensures refusal { AnswersFor context.now standing.now tables.old
        (Item.Type name.now shape.now) result }
{
    let scope = standing.scope(alloc, &context.declarations);
    standing.refuse_declared(&scope, name)?;
    let shown = standing.shown(alloc, name)?;
    link_shape(alloc, tables, &scope, standing.site(name), shown, shape)
}

/// A declared type, by its shape.
fn link_shape(
    alloc: Global,
    tables: &mut Tables,
    scope: &Scope<'_>,
    site: Site,
    name: Blob,
    shape: &Shape,
) -> Result<(), Refusal>
    ensures tables { OnOk result (tables.new
        ≡ spec.with_shape (view_in tables.old scope.now) site name
        shape.now) }
    ensures refusal { Answers result (shape_refusal (view_in tables.old scope.now) shape.now) }
{
    match shape {
        Shape::Struct { place, fields } => {
            refuse_depth(tables, scope, *place, fields.as_slice())?;
            let fields = read_members(alloc, tables, scope, fields.as_slice())?;
            Ok(tables.add_type(site, Declared::Struct { name, fields })?)
        }
        Shape::Enum { place: _, words } => {
            let words = read_constants(alloc, words.as_slice())?;
            Ok(tables.add_type(site, Declared::Enum { name, words })?)
        }
        Shape::Overlay { place: _, fields } => {
            let fields = read_fields(alloc, tables, scope, fields.as_slice())?;
            Ok(tables.add_type(site, Declared::Overlay { name, fields })?)
        }
        Shape::Exception { place: _, parent } => {
            let parent = read_parent(scope, parent)?;
            Ok(
                tables
                    .exceptions
                    .push(LinkedException { site, name, parent })?,
            )
        }
    }
}

/// A global.
fn link_global(
    alloc: Global,
    context: &Context<'_>,
    standing: &Standing<'_>,
    tables: &mut Tables,
    kind: &TypeText,
    name: &Word,
    value: &Option<Literal>,
) -> Result<(), Refusal>
    ensures tables { OnOk result (Adds context.now standing.now tables.old
        (Item.Global kind.now name.now value.now) tables.new) }
    ensures refusal { AnswersFor context.now standing.now tables.old
        (Item.Global kind.now name.now value.now)
        result }
{
    let scope = standing.scope(alloc, &context.declarations);
    let kind = read_type(alloc, &scope, &tables.types, kind)?;
    standing.refuse_declared(&scope, name)?;
    refuse_value(&scope, tables, &kind, value)?;
    Ok(
        tables.globals.push(LinkedGlobal {
            site: standing.site(name),
            name: standing.shown(alloc, name)?,
            kind,
        })?,
    )
}

/// Refuses a global's literal that is no value of its type.
fn refuse_value(
    scope: &Scope<'_>,
    tables: &Tables,
    kind: &ValueType,
    value: &Option<Literal>,
) -> Result<(), Refusal>
    ensures { Answers result
        (spec.value_refusal_by (view_in tables.now scope.now) kind.now value.now) }
{
    let Some(literal) = value else {
        return Ok(());
    };
    match check_literal(scope, &tables.types, kind, literal) {
        None => Ok(()),
        Some(refusal) => Err(refusal),
    }
}

/// A hook.
fn link_hook(
    alloc: Global,
    context: &Context<'_>,
    standing: &Standing<'_>,
    tables: &mut Tables,
    name: &Word,
    parameters: &Parameters,
) -> Result<(), Refusal>
    ensures tables { OnOk result
        (Adds context.now standing.now tables.old (Item.Hook name.now parameters.now)
        tables.new) }
    ensures refusal { AnswersFor context.now standing.now tables.old
        (Item.Hook name.now parameters.now) result }
{
    let scope = standing.scope(alloc, &context.declarations);
    standing.refuse_declared(&scope, name)?;
    let parameters = read_words(alloc, tables, &scope, Role::Slot, parameters.as_slice())?;
    Ok(
        tables.hooks.push(LinkedHook {
            site: standing.site(name),
            name: standing.shown(alloc, name)?,
            parameters,
        })?,
    )
}

/// A body of a hook.
fn link_hook_body(
    alloc: Global,
    context: &Context<'_>,
    standing: &Standing<'_>,
    tables: &mut Tables,
    name: &Name,
    parameters: &Parameters,
    body: &Body,
) -> Result<(), Refusal>
    ensures tables { OnOk result ((priority : Option Number)
        → Adds context.now standing.now tables.old
        (Item.HookBody name.now parameters.now priority body.now) tables.new) }
    ensures refusal { (priority : Option Number) → AnswersFor context.now standing.now tables.old
        (Item.HookBody name.now parameters.now priority body.now) result }
{
    let inside = standing.scope_behind(
        alloc,
        &context.declarations,
        parameters.as_slice(),
        body.locals.as_slice(),
    )?;
    let meaning = standing.scope(alloc, &context.declarations).meaning(name);
    let hook = read_hook(
        alloc,
        context,
        &inside,
        parameters.as_slice(),
        name.first.place,
        meaning,
    )?;
    let slots = read_slots(
        alloc,
        tables,
        &inside,
        parameters.as_slice(),
        body.locals.as_slice(),
    )?;
    Ok(
        tables.functions.push(LinkedFunction {
            site: standing.site(&name.first),
            name: standing.shown_name(alloc, name)?,
            version: standing.version,
            parameters: parameters.len(),
            slots,
            result: None,
            hook,
        })?,
    )
}

/// The type of a result.
fn read_result(
    alloc: Global,
    tables: &Tables,
    scope: &Scope<'_>,
    returns: &Option<TypeText>,
) -> Result<Option<ValueType>, Refusal>
    ensures kind { IfOk result (λ kind. kind
        ≡ option_map (type_at (view_in tables.now scope.now)) returns.now) }
    ensures refusal { Answers result
        (spec.result_refusal (view_in tables.now scope.now) returns.now) }
{
    match returns {
        Some(text) => Ok(Some(read_type(alloc, scope, &tables.types, text)?)),
        None => Ok(None),
    }
}

/// A function.
fn link_function(
    alloc: Global,
    context: &Context<'_>,
    standing: &Standing<'_>,
    tables: &mut Tables,
    returns: &Option<TypeText>,
    name: &Word,
    parameters: &Parameters,
    body: &Body,
) -> Result<(), Refusal>
    ensures tables { OnOk result (Adds context.now standing.now tables.old
        (Item.Function returns.now name.now parameters.now body.now) tables.new) }
    ensures refusal { AnswersFor context.now standing.now tables.old
        (Item.Function returns.now name.now parameters.now body.now) result }
{
    let scope = standing.scope(alloc, &context.declarations);
    let result = read_result(alloc, tables, &scope, returns)?;
    standing.refuse_declared(&scope, name)?;
    let inside = standing.scope_behind(
        alloc,
        &context.declarations,
        parameters.as_slice(),
        body.locals.as_slice(),
    )?;
    let slots = read_slots(
        alloc,
        tables,
        &inside,
        parameters.as_slice(),
        body.locals.as_slice(),
    )?;
    Ok(
        tables.functions.push(LinkedFunction {
            site: standing.site(name),
            name: standing.shown(alloc, name)?,
            version: standing.version,
            parameters: parameters.len(),
            slots,
            result,
            hook: None,
        })?,
    )
}
