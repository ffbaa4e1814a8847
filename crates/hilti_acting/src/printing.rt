//! The line of a `print`: the texts of values.
ghost use Rattle.std.specs.Prelude.{◌≡◌, ◌+◌, ◌<◌, ◌++◌, nat_lt, map, flat_map, codes};
ghost use Rattle.std.specs.Prelude.{IfOk, OnOk, IfSome, IfNone};
ghost use Rattle.std.specs.List.{All, join_by};
ghost use Rattle.hilti_print.specs.Trees.{tree_text};
ghost use Rattle.hilti_tree.specs.Sizes.{tree_size, forest_size};
ghost use Rattle.hilti_effects.specs.Acting.{prints};
ghost use Rattle.hilti_effects.specs.Asks.{AsksPrinted};
ghost use Rattle.hilti_effects.specs.Operands as operands;
ghost use Rattle.hilti_effects.specs.Printing as printing;
ghost use Rattle.hilti_effects.specs.Printing.{printed_line, shown};
ghost use Rattle.hilti_acting.specs.Acts.{Acts, Stands, MayRaise, of_state};
ghost use Rattle.hilti_acting.specs.Printed.{shown_text, shown_size};

use crate::did::Did;
use crate::finishing::raise_error;
use crate::memory::Memory;
use crate::places::value_at;
use hilti_base::{Blob, NoMemory, Raise};
use hilti_print::tree;
use hilti_program::Program;
use hilti_rows::Printed;
use hilti_stack::{Position, Stack};
use hilti_tree::{Forest, Tree};
use hilti_types::TypeTable;
use hilti_values::{Value, Values};
use std::alloc::Global;

/// The most that the trees of one line may measure together.
const MOST: u64 = 1_000_000;

/// What is left of a room behind the tree of a value; `None` exactly where the tree is larger.
#[cycle(rooms)]
fn room_behind(value: &Value, room: u64) -> Option<u64>
    ensures some { IfSome result (λ left.
        left + tree_size (printing.tree_of value.now) ≡ room) }
    ensures none { IfNone result (room < tree_size (printing.tree_of value.now)) }
{
    let room = room.checked_sub(1)?;
    match value {
        Value::Text(text) => room.checked_sub(text.bytes().len() as u64),
        Value::Bytes(bytes) => room.checked_sub(bytes.bytes().len() as u64),
        Value::Tuple(parts) => room_behind_all(parts, room),
        _ => Some(room),
    }
}

/// The same of the trees of values together.
#[cycle(rooms)]
fn room_behind_all(values: &Values, room: u64) -> Option<u64>
    ensures some { IfSome result (λ left.
        left + forest_size (map printing.tree_of values.now) ≡ room) }
    ensures none { IfNone result (room < forest_size (map printing.tree_of values.now)) }
{
    let mut left = room;
    for value in values.as_slice() {
        left = room_behind(value, left)?;
    }
    Some(left)
}

/// Whether the trees of printed values measure too much together.
fn is_too_large(stack: &Stack, globals: &[Value], items: &[Printed]) -> bool
    requires { All (AsksPrinted stack.now.slots globals.now) items.now }
    ensures { result ≡ nat_lt 1000000 (shown_size stack.now.slots globals.now items.now) }
{
    let mut left = MOST;
    for item in items {
        let Some(behind) = room_behind(value_at(stack, globals, &item.value), left) else {
            return true;
        };
        left = behind;
    }
    false
}

/// The tree of a value that names no object; an object gives Null.
#[cycle(trees)]
fn tree_of(alloc: Global, value: &Value) -> Result<Tree, NoMemory>
    ensures { IfOk result (λ tree. tree ≡ printing.tree_of value.now) }
{
    Ok(match value {
        Value::Bool(truth) => Tree::Bool(*truth),
        Value::Int(n) => Tree::Int(*n),
        Value::Text(bytes) => Tree::Text(Blob::of(alloc, bytes.bytes())?),
        Value::Bytes(bytes) => Tree::Bytes(Blob::of(alloc, bytes.bytes())?),
        Value::Addr(address) => Tree::Addr(*address),
        Value::Net { length, address } => Tree::Net(*address, *length),
        Value::Port(n, is_udp) => Tree::Port(*n, *is_udp),
        Value::Time(nanos) => Tree::Time(*nanos),
        Value::Span(nanos) => Tree::Span(*nanos),
        Value::Pick(n) => Tree::Pick(*n),
        Value::Tuple(parts) => Tree::Tuple(trees_of(alloc, parts)?),
        Value::Null | Value::Ref(_) | Value::Iter(_) => Tree::Null,
    })
}

/// The trees of values, in their order.
#[cycle(trees)]
fn trees_of(alloc: Global, values: &Values) -> Result<Forest, NoMemory>
    ensures { IfOk result (λ trees. trees ≡ map printing.tree_of values.now) }
{
    let mut trees = Forest::new(alloc);
    for value in values.as_slice() {
        trees.push(tree_of(alloc, value)?)?;
    }
    Ok(trees)
}

/// Adds the text of a printed value.
fn append_item(
    alloc: Global,
    out: &mut Blob,
    types: &TypeTable,
    stack: &Stack,
    globals: &[Value],
    item: &Printed,
) -> Result<(), NoMemory>
    requires { AsksPrinted stack.now.slots globals.now item.now }
    ensures { OnOk result
        (out.new ≡ out.old ++ shown_text types.now stack.now.slots globals.now item.now) }
{
    let found = tree_of(alloc, value_at(stack, globals, &item.value))?;
    tree(out, &found, &item.kind, types)?;
    Ok(())
}

/// Adds a space, and the text of a printed value.
fn append_next(
    alloc: Global,
    out: &mut Blob,
    types: &TypeTable,
    stack: &Stack,
    globals: &[Value],
    item: &Printed,
) -> Result<(), NoMemory>
    requires { AsksPrinted stack.now.slots globals.now item.now }
    ensures { OnOk result (out.new ≡ out.old
        ++ (codes " " ++ shown_text types.now stack.now.slots globals.now item.now)) }
{
    out.append(b" ")?;
    append_item(alloc, out, types, stack, globals, item)?;
    Ok(())
}

/// Adds the texts of printed values, each behind a space.
fn append_others(
    alloc: Global,
    out: &mut Blob,
    types: &TypeTable,
    stack: &Stack,
    globals: &[Value],
    items: &[Printed],
) -> Result<(), NoMemory>
    requires { All (AsksPrinted stack.now.slots globals.now) items.now }
    ensures { OnOk result (out.new ≡ out.old ++ flat_map
        (λ item. codes " " ++ shown_text types.now stack.now.slots globals.now item) items.now) }
{
    for item in items {
        append_next(alloc, out, types, stack, globals, item)?;
    }
    Ok(())
}

/// Adds the texts of printed values, with one space between.
fn append_items(
    alloc: Global,
    out: &mut Blob,
    types: &TypeTable,
    stack: &Stack,
    globals: &[Value],
    items: &[Printed],
) -> Result<(), NoMemory>
    requires { All (AsksPrinted stack.now.slots globals.now) items.now }
    ensures { OnOk result (out.new ≡ out.old
        ++ join_by (shown_text types.now stack.now.slots globals.now) (codes " ") items.now) }
{
    let Some((first, others)) = items.split_first() else {
        return Ok(());
    };
    append_item(alloc, out, types, stack, globals, first)?;
    append_others(alloc, out, types, stack, globals, others)?;
    Ok(())
}

/// The texts of values, with one space between, are printed. Where their trees measure more than 1,000,000 together
/// ValueError is raised.
pub fn print_row(
    alloc: Global,
    program: &Program,
    p: &mut Position,
    stack: &mut Stack,
    memory: &mut Memory,
    items: &[Printed],
) -> Result<Did, NoMemory>
    requires asks { All (AsksPrinted stack.old.slots memory.old.globals.items) items.now }
    requires may { MayRaise program.now p.old stack.old.slots }
    requires stands { Stands p.old stack.old memory.old }
    ensures { IfOk result (λ did. Acts
        (of_state (λ st. prints program.now p.old stack.old.slots st
        (printed_line program.now.types (shown stack.old.slots st.globals items.now)))
        memory.old.globals.items) p.old stack.old memory.old did p.new stack.new memory.new) }
{
    if is_too_large(stack, memory.globals.as_slice(), items) {
        return Ok(raise_error(program, p, stack, memory, Raise::ValueError));
    }
    let mut text = Blob::new(alloc);
    let types = &program.parts().types;
    append_items(
        alloc,
        &mut text,
        types,
        stack,
        memory.globals.as_slice(),
        items,
    )?;
    p.at += 1;
    Ok(Did::Said { text })
}
