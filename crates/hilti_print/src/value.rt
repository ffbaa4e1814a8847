ghost use Rattle.std.specs.Prelude.{◌≡◌, ◌++◌, map, OnOk};
ghost use Rattle.std.specs.Option.{option_copied};
ghost use Rattle.hilti_print.specs.Trees.{field_text, item_text, listed, part_text, value_at};
ghost use Rattle.hilti_print.specs.Trees.{before, named, quoted_text, truth_text, tree_text, value_text};

use crate::addresses::{address, net, port};
use crate::shapes::{
    at_place, item_shape, key_shape, kind_at, members_of, name_at, part_shapes, value_shape,
    words_of,
};
use crate::text::{escaped, moment, number};
use hilti_base::{Blob, NoMemory};
use hilti_tree::{Forest, Tree};
use hilti_types::{Member, TypeTable, ValueType};

/// A value of a type as `print` shows it. A string and bytes have their escapes, and quotes only within another value. A
/// constant of an enum is its word and a field of a struct stands behind its name, or each has its place in decimal
/// where the type gives no name to it. The other texts are:
///
/// | value | text |
/// |---|---|
/// | truth value, Null | `True`, `False`, `Null` |
/// | number | decimal |
/// | address, net, port | `10.0.0.1`, `10.0.0.0/8`, `80/tcp` |
/// | time, interval | seconds, `.`, nine digits |
/// | tuple | `(a, b)` |
/// | list, vector | `[a, b]` |
/// | set, map | `{a, b}`, `{k: v, l: w}` |
/// | struct | `<f=v, g=unset>` |
/// | classifier | `classifier(N)`, with the number of its rules |
pub fn tree(
    out: &mut Blob,
    tree: &Tree,
    shape: &ValueType,
    types: &TypeTable,
) -> Result<(), NoMemory>
    ensures { OnOk result (out.new ≡ out.old ++ tree_text types.now shape.now tree.now) }
{
    match tree {
        Tree::Text(bytes) | Tree::Bytes(bytes) => escaped(out, bytes.bytes()),
        _ => value(out, tree, Some(shape), types),
    }
}

/// A value as it stands within another.
#[cycle(value)]
fn value(
    out: &mut Blob,
    tree: &Tree,
    shape: Option<&ValueType>,
    types: &TypeTable,
) -> Result<(), NoMemory>
    ensures { OnOk result
        (out.new ≡ out.old ++ value_text types.now tree.now (option_copied shape.entry)) }
{
    match tree {
        Tree::Bool(value) => truth(out, *value),
        Tree::Int(n) => number(out, *n),
        Tree::Text(bytes) | Tree::Bytes(bytes) => quoted(out, bytes.bytes()),
        Tree::Addr(a) => address(out, *a),
        Tree::Net(addr, len) => net(out, *addr, *len),
        Tree::Port(n, is_udp) => port(out, *n, *is_udp),
        Tree::Time(nanos) | Tree::Span(nanos) => moment(out, *nanos),
        Tree::Pick(n) => name(
            out,
            at_place(words_of(shape, types), *n as usize),
            u64::from(*n),
        ),
        Tree::Null => out.append(b"Null"),
        Tree::Unset => out.append(b"unset"),
        Tree::Tuple(trees) => {
            out.append(b"(")?;
            parts(out, trees, part_shapes(shape), types)?;
            out.append(b")")
        }
        Tree::List(trees) | Tree::Vector(trees) => {
            out.append(b"[")?;
            items(out, trees, item_shape(shape), types)?;
            out.append(b"]")
        }
        Tree::Set(keys) => {
            out.append(b"{")?;
            items(out, keys, item_shape(shape), types)?;
            out.append(b"}")
        }
        Tree::Map(keys, values) => {
            out.append(b"{")?;
            for at in 0..keys.len() {
                before_item(out, at)?;
                tree_at(out, keys, at, key_shape(shape), types)?;
                out.append(b": ")?;
                tree_at(out, values, at, value_shape(shape), types)?;
            }
            out.append(b"}")
        }
        Tree::Fields(trees) => {
            out.append(b"<")?;
            fields(out, trees, members_of(shape, types), types)?;
            out.append(b">")
        }
        Tree::Rules {
            fields,
            priorities: _,
            values: _,
            compiled: _,
        } => {
            out.append(b"classifier(")?;
            number(out, fields.len() as u64)?;
            out.append(b")")
        }
    }
}

/// The parts of a tuple, each of the type at its place.
#[cycle(value)]
fn parts(
    out: &mut Blob,
    trees: &Forest,
    shapes: &[ValueType],
    types: &TypeTable,
) -> Result<(), NoMemory>
    ensures { OnOk result (out.new
        ≡ out.old ++ listed (part_text shapes.now) (map (value_text types.now) trees.now)) }
{
    let trees = trees.as_slice();
    for at in 0..trees.len() {
        before_item(out, at)?;
        value(out, &trees[at], at_place(shapes, at), types)?;
    }
    Ok(())
}

/// Items of one type.
#[cycle(value)]
fn items(
    out: &mut Blob,
    trees: &Forest,
    shape: Option<&ValueType>,
    types: &TypeTable,
) -> Result<(), NoMemory>
    ensures { OnOk result (out.new
        ≡ out.old
        ++ listed (item_text (option_copied shape.entry)) (map (value_text types.now) trees.now)) }
{
    let trees = trees.as_slice();
    for at in 0..trees.len() {
        before_item(out, at)?;
        value(out, &trees[at], shape, types)?;
    }
    Ok(())
}

/// The tree at a place, if there is one.
#[cycle(value)]
fn tree_at(
    out: &mut Blob,
    trees: &Forest,
    at: usize,
    shape: Option<&ValueType>,
    types: &TypeTable,
) -> Result<(), NoMemory>
    ensures { OnOk result (out.new
        ≡ out.old
        ++ value_at (map (value_text types.now) trees.now) (option_copied shape.entry) at) }
{
    match trees.get(at) {
        Some(found) => value(out, found, shape, types),
        None => Ok(()),
    }
}

/// The fields of a struct, each behind its name.
#[cycle(value)]
fn fields(
    out: &mut Blob,
    trees: &Forest,
    members: &[Member],
    types: &TypeTable,
) -> Result<(), NoMemory>
    ensures { OnOk result (out.new
        ≡ out.old ++ listed (field_text members.now) (map (value_text types.now) trees.now)) }
{
    let trees = trees.as_slice();
    for at in 0..trees.len() {
        before_item(out, at)?;
        name(out, name_at(members, at), at as u64)?;
        out.append(b"=")?;
        value(out, &trees[at], kind_at(members, at), types)?;
    }
    Ok(())
}

/// The comma before all items but the first.
fn before_item(out: &mut Blob, at: usize) -> Result<(), NoMemory>
    ensures { OnOk result (out.new ≡ out.old ++ before at) }
{
    if at == 0 {
        return Ok(());
    }
    out.append(b", ")
}

/// A name, or the place of what has none.
fn name(out: &mut Blob, name: Option<&Blob>, place: u64) -> Result<(), NoMemory>
    ensures { OnOk result (out.new ≡ out.old ++ named (option_copied name.entry) place) }
{
    match name {
        Some(name) if !name.is_empty() => out.append(name.bytes()),
        _ => number(out, place),
    }
}

fn truth(out: &mut Blob, value: bool) -> Result<(), NoMemory>
    ensures { OnOk result (out.new ≡ out.old ++ truth_text value) }
{
    if value {
        out.append(b"True")
    } else {
        out.append(b"False")
    }
}

/// Bytes with their escapes, between quotes.
fn quoted(out: &mut Blob, bytes: &[u8]) -> Result<(), NoMemory>
    ensures { OnOk result (out.new ≡ out.old ++ quoted_text bytes.now) }
{
    out.append(b"\"")?;
    escaped(out, bytes)?;
    out.append(b"\"")
}
