//! How deep a written type nests, told up to 17. Nothing here takes memory.
ghost use Rattle.std.specs.Prelude.{◌≡◌, ◌+◌, min, map, slice_get, unwrap_or};
ghost use Rattle.hilti_types.specs.Depths.{depths, greatest};
ghost use Rattle.hilti_scope.specs.Scopes.{means};
ghost use Rattle.hilti_resolve.specs.Depth.{meaning_depth as depth_of_meaning, written_depth};
ghost use Rattle.hilti_resolve.specs.Depth.{written_parametric_depth, written_inner_depth};
ghost use Rattle.hilti_resolve.specs.Depth.{written_container_depth};

use hilti_module::{Container, InnerText, Name, Parametric, TypeText, TypeTexts};
use hilti_scope::{Meaning, Scope};
use hilti_types::TypeTable;

/// The depth of a type that nests too deep: 16 is the most that is allowed, and more is not told apart.
pub const TOO_DEEP: u32 = 17;

/// How deep a written type nests, or 17 where it nests deeper. `table` has the types that are declared in front of it.
#[cycle(depth)]
pub fn capped_depth(scope: &Scope<'_>, table: &TypeTable, text: &TypeText) -> u32
    ensures { result ≡ min 17 (written_depth (depths table.now) (means scope.now) text.now) }
{
    match text {
        TypeText::Plain { place: _, plain: _ } => 1,
        TypeText::Parametric(parametric) => parametric_depth(scope, table, parametric),
        TypeText::Named(name) => name_depth(scope, table, name),
    }
}

/// The same of a type with something between `<` and `>`.
#[cycle(depth)]
pub fn parametric_depth(scope: &Scope<'_>, table: &TypeTable, parametric: &Parametric) -> u32
    ensures { result ≡ min 17 (written_parametric_depth (depths table.now) (means scope.now)
        parametric.now) }
{
    match parametric {
        Parametric::Int { place: _, bits: _ } => 1,
        Parametric::Tuple { place: _, parts } => one_more(parts_depth(scope, table, parts)),
        Parametric::Iterator { place: _, over } => one_more(inner_depth(scope, table, over)),
        Parametric::Ref { place: _, to } => inner_depth(scope, table, to),
    }
}

/// The same of the deepest part of a tuple.
#[cycle(depth)]
fn parts_depth(scope: &Scope<'_>, table: &TypeTable, parts: &TypeTexts) -> u32
    ensures { result ≡ min 17
        (greatest (map (written_depth (depths table.now) (means scope.now)) parts.now)) }
{
    let mut deepest = 0;
    for part in parts.as_slice() {
        let part_depth = capped_depth(scope, table, part);
        deepest = deepest.max(part_depth);
    }
    deepest
}

/// The same of what stands between the `<` and `>` of a reference or an iterator.
#[cycle(depth)]
fn inner_depth(scope: &Scope<'_>, table: &TypeTable, inner: &InnerText) -> u32
    ensures { result ≡ min 17 (written_inner_depth (depths table.now) (means scope.now) inner.now) }
{
    match inner {
        InnerText::Word { place: _, word: _ } => 1,
        InnerText::Container(container) => container_depth(scope, table, container),
        InnerText::Declared(name) => name_depth(scope, table, name),
    }
}

/// The same of a container.
#[cycle(depth)]
pub fn container_depth(scope: &Scope<'_>, table: &TypeTable, container: &Container) -> u32
    ensures { result
        ≡ min 17 (written_container_depth (depths table.now) (means scope.now) container.now) }
{
    match container {
        Container::Single {
            place: _,
            single: _,
            item,
        } => one_more(capped_depth(scope, table, item.get())),
        Container::Double {
            place: _,
            double: _,
            first,
            second,
        } => {
            let first_depth = capped_depth(scope, table, first.get());
            let second_depth = capped_depth(scope, table, second.get());
            one_more(first_depth.max(second_depth))
        }
    }
}

/// The same of a name.
fn name_depth(scope: &Scope<'_>, table: &TypeTable, name: &Name) -> u32
    ensures { result ≡ min 17 (depth_of_meaning (depths table.now) (means scope.now name.now)) }
{
    match scope.meaning(name) {
        Meaning::Struct { n } => struct_depth(table, n),
        _ => 1,
    }
}

/// The same of the declared type at a place, and 1 past the last.
fn struct_depth(table: &TypeTable, n: u32) -> u32
    ensures { result ≡ min 17 (unwrap_or (slice_get (depths table.now) n) 1) }
{
    table.depth_at(n as usize).min(TOO_DEEP)
}

/// 1 more, up to 17.
fn one_more(depth: u32) -> u32
    ensures { result ≡ min 17 (1 + depth) }
{
    if depth < TOO_DEEP {
        depth + 1
    } else {
        TOO_DEEP
    }
}
