//! The first name in a written type that means nothing. Nothing here takes memory.
ghost use Rattle.std.specs.Prelude.{◌≡◌, map};
ghost use Rattle.hilti_scope.specs.Scopes.{means};
ghost use Rattle.hilti_resolve.specs.Names.{first_of, unknown_name as unknown_place};
ghost use Rattle.hilti_resolve.specs.Names.{first_unknown as first_unknown_place};
ghost use Rattle.hilti_resolve.specs.Names.{first_unknown_parametric, first_unknown_inner};
ghost use Rattle.hilti_resolve.specs.Names.{first_unknown_container};

use hilti_base::Place;
use hilti_module::{Container, InnerText, Name, Parametric, TypeText, TypeTexts};
use hilti_scope::{Meaning, Scope};

/// The place of the first name in a written type that means nothing.
#[cycle(unknown)]
pub fn first_unknown(scope: &Scope<'_>, text: &TypeText) -> Option<Place>
    ensures { result ≡ first_unknown_place (means scope.now) text.now }
{
    match text {
        TypeText::Plain { place: _, plain: _ } => None,
        TypeText::Parametric(parametric) => unknown_in_parametric(scope, parametric),
        TypeText::Named(name) => unknown_name(scope, name),
    }
}

/// The same of a type with something between `<` and `>`.
#[cycle(unknown)]
pub fn unknown_in_parametric(scope: &Scope<'_>, parametric: &Parametric) -> Option<Place>
    ensures { result ≡ first_unknown_parametric (means scope.now) parametric.now }
{
    match parametric {
        Parametric::Int { place: _, bits: _ } => None,
        Parametric::Tuple { place: _, parts } => unknown_in_parts(scope, parts),
        Parametric::Iterator { place: _, over } => unknown_in_inner(scope, over),
        Parametric::Ref { place: _, to } => unknown_in_inner(scope, to),
    }
}

/// The same of the parts of a tuple, in order.
#[cycle(unknown)]
fn unknown_in_parts(scope: &Scope<'_>, parts: &TypeTexts) -> Option<Place>
    ensures { result ≡ first_of (map (first_unknown_place (means scope.now)) parts.now) }
{
    for part in parts.as_slice() {
        if let Some(place) = first_unknown(scope, part) {
            return Some(place);
        }
    }
    None
}

/// The same of what stands between the `<` and `>` of a reference or an iterator.
#[cycle(unknown)]
fn unknown_in_inner(scope: &Scope<'_>, inner: &InnerText) -> Option<Place>
    ensures { result ≡ first_unknown_inner (means scope.now) inner.now }
{
    match inner {
        InnerText::Word { place: _, word: _ } => None,
        InnerText::Container(container) => unknown_in_container(scope, container),
        InnerText::Declared(name) => unknown_name(scope, name),
    }
}

/// The same of a container.
#[cycle(unknown)]
pub fn unknown_in_container(scope: &Scope<'_>, container: &Container) -> Option<Place>
    ensures { result ≡ first_unknown_container (means scope.now) container.now }
{
    match container {
        Container::Single {
            place: _,
            single: _,
            item,
        } => first_unknown(scope, item.get()),
        Container::Double {
            place: _,
            double: _,
            first,
            second,
        } => match first_unknown(scope, first.get()) {
            Some(place) => Some(place),
            None => first_unknown(scope, second.get()),
        },
    }
}

/// The place of a name that means nothing: that of its first word.
fn unknown_name(scope: &Scope<'_>, name: &Name) -> Option<Place>
    ensures { result ≡ unknown_place (means scope.now) name.now }
{
    match scope.meaning(name) {
        Meaning::Nothing => Some(name.first.place),
        _ => None,
    }
}
