//! Whether written types say the same, each in its scope. Nothing here takes memory.
ghost use Rattle.std.specs.Prelude.{◌≡◌, ◌↔◌, IsTrue, map};
ghost use Rattle.hilti_module.specs.declared.types.Name.{Name};
ghost use Rattle.hilti_module.specs.declared.types.PlainInner.TheVariants as words;
ghost use Rattle.hilti_scope.specs.declared.meaning.Meaning.{Meaning};
ghost use Rattle.hilti_scope.specs.Scopes.{means};
ghost use Rattle.hilti_resolve.specs.Written.{says, parametric_writes, inner_writes};
ghost use Rattle.hilti_resolve.specs.Written.{container_writes, Plain, InnerWord};

use hilti_module::{
    Container, InnerText, Name, Parametric, PlainInner, PlainType, TypeText, TypeTexts,
};
use hilti_scope::Scope;

/// Whether two written types say the same.
#[cycle(same)]
pub fn same_type(
    scope: &Scope<'_>,
    text: &TypeText,
    other_scope: &Scope<'_>,
    other: &TypeText,
) -> bool
    ensures { IsTrue result
        ↔ (says (means scope.now) text.now ≡ says (means other_scope.now) other.now) }
{
    match text {
        TypeText::Plain { place: _, plain } => match other {
            TypeText::Plain {
                place: _,
                plain: other_plain,
            } => *plain == *other_plain,
            TypeText::Parametric(parametric) => says_plain(parametric, *plain),
            TypeText::Named(_) => false,
        },
        TypeText::Parametric(parametric) => match other {
            TypeText::Plain { place: _, plain } => says_plain(parametric, *plain),
            TypeText::Parametric(other_parametric) => {
                same_parametric(scope, parametric, other_scope, other_parametric)
            }
            TypeText::Named(_) => false,
        },
        TypeText::Named(name) => match other {
            TypeText::Named(other_name) => same_name(scope, name, other_scope, other_name),
            _ => false,
        },
    }
}

/// The same of types with something between `<` and `>`.
#[cycle(same)]
fn same_parametric(
    scope: &Scope<'_>,
    parametric: &Parametric,
    other_scope: &Scope<'_>,
    other: &Parametric,
) -> bool
    ensures { IsTrue result
        ↔ (parametric_writes (means scope.now) parametric.now ≡ parametric_writes
        (means other_scope.now) other.now) }
{
    match parametric {
        Parametric::Int { place: _, bits } => match other {
            Parametric::Int {
                place: _,
                bits: other_bits,
            } => bits.value == other_bits.value,
            _ => false,
        },
        Parametric::Tuple { place: _, parts } => match other {
            Parametric::Tuple {
                place: _,
                parts: other_parts,
            } => same_parts(scope, parts, other_scope, other_parts),
            _ => false,
        },
        Parametric::Iterator { place: _, over } => match other {
            Parametric::Iterator {
                place: _,
                over: other_over,
            } => same_inner(scope, over, other_scope, other_over),
            _ => false,
        },
        Parametric::Ref { place: _, to } => match other {
            Parametric::Ref {
                place: _,
                to: other_to,
            } => same_inner(scope, to, other_scope, other_to),
            _ => false,
        },
    }
}

/// The same of the parts of two tuples.
#[cycle(same)]
fn same_parts(
    scope: &Scope<'_>,
    parts: &TypeTexts,
    other_scope: &Scope<'_>,
    others: &TypeTexts,
) -> bool
    ensures { IsTrue result
        ↔ (map (says (means scope.now)) parts.now ≡ map (says (means other_scope.now))
        others.now) }
{
    let left = parts.as_slice();
    let right = others.as_slice();
    if left.len() != right.len() {
        return false;
    }
    for at in 0..left.len() {
        if !same_type(scope, &left[at], other_scope, &right[at]) {
            return false;
        }
    }
    true
}

/// The same of what stands between the `<` and `>` of references or iterators.
#[cycle(same)]
fn same_inner(
    scope: &Scope<'_>,
    inner: &InnerText,
    other_scope: &Scope<'_>,
    other: &InnerText,
) -> bool
    ensures { IsTrue result ↔ (inner_writes (means scope.now) inner.now ≡ inner_writes
        (means other_scope.now) other.now) }
{
    match inner {
        InnerText::Word { place: _, word } => match other {
            InnerText::Word {
                place: _,
                word: other_word,
            } => *word == *other_word,
            _ => false,
        },
        InnerText::Container(container) => match other {
            InnerText::Container(other_container) => {
                same_container(scope, container, other_scope, other_container)
            }
            _ => false,
        },
        InnerText::Declared(name) => match other {
            InnerText::Declared(other_name) => same_name(scope, name, other_scope, other_name),
            _ => false,
        },
    }
}

/// The same of containers.
#[cycle(same)]
fn same_container(
    scope: &Scope<'_>,
    container: &Container,
    other_scope: &Scope<'_>,
    other: &Container,
) -> bool
    ensures { IsTrue result ↔ (container_writes (means scope.now) container.now ≡ container_writes
        (means other_scope.now) other.now) }
{
    match container {
        Container::Single {
            place: _,
            single,
            item,
        } => match other {
            Container::Single {
                place: _,
                single: other_single,
                item: other_item,
            } => {
                *single == *other_single
                    && same_type(scope, item.get(), other_scope, other_item.get())
            }
            _ => false,
        },
        Container::Double {
            place: _,
            double,
            first,
            second,
        } => match other {
            Container::Double {
                place: _,
                double: other_double,
                first: other_first,
                second: other_second,
            } => {
                *double == *other_double
                    && same_type(scope, first.get(), other_scope, other_first.get())
                    && same_type(scope, second.get(), other_scope, other_second.get())
            }
            _ => false,
        },
    }
}

/// Whether two names mean the same.
fn same_name(scope: &Scope<'_>, name: &Name, other_scope: &Scope<'_>, other: &Name) -> bool
    ensures { IsTrue result ↔ (means scope.now name.now ≡ means other_scope.now other.now) }
{
    scope.meaning(name) == other_scope.meaning(other)
}

/// Whether a type with something between `<` and `>` is this type of one word: a reference to bytes is bytes.
fn says_plain(parametric: &Parametric, plain: PlainType) -> bool
    ensures { (mean : Name → Meaning) → IsTrue result ↔
        (parametric_writes mean parametric.now ≡ Plain plain) }
{
    match parametric {
        Parametric::Ref { place: _, to } => plain == PlainType::Bytes && says_bytes(to),
        _ => false,
    }
}

/// Whether the word `bytes` stands between the `<` and `>` of a reference.
fn says_bytes(inner: &InnerText) -> bool
    ensures { (mean : Name → Meaning) → IsTrue result ↔
        (inner_writes mean inner.now ≡ InnerWord words.Bytes) }
{
    match inner {
        InnerText::Word { place: _, word } => *word == PlainInner::Bytes,
        _ => false,
    }
}
