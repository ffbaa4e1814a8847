//! Operands as sources.
ghost use Rattle.std.specs.Prelude.{◌≡◌, IfOk};
ghost use Rattle.hilti_rows.specs.Sources.{variable_source, source_of, sources_of};
ghost use Rattle.hilti_rows.specs.Sources.{grouped_sources, both, pair};

use crate::row::{Source, Sources};
use hilti_base::NoMemory;
use hilti_parts::{Operand, Variable};
use hilti_values::literal_value;
use std::alloc::Global;

/// Where a variable's value is.
fn variable_place(v: Variable) -> Source
    ensures { result ≡ variable_source v }
{
    match v {
        Variable::Slot { n } => Source::Slot { n },
        Variable::Global { n } => Source::Global { n },
    }
}

/// Where an operand's value is; `None` exactly where it has none.
pub fn source(alloc: Global, operand: &Operand) -> Result<Option<Source>, NoMemory>
    ensures { IfOk result (λ source. source ≡ source_of operand.now) }
{
    match operand {
        Operand::Var { v, kind: _ } => Ok(Some(variable_place(*v))),
        Operand::Literal { kind: _, value } => {
            let Some(value) = literal_value(alloc, value)? else {
                return Ok(None);
            };
            Ok(Some(Source::Constant { value }))
        }
        _ => Ok(None),
    }
}

/// Two things together; `None` exactly where one is missing.
pub fn together<A: Drop, B: Drop>(a: Option<A>, b: Option<B>) -> Option<(A, B)>
    ensures { result ≡ both pair a b }
{
    let (Some(a), Some(b)) = (a, b) else {
        return None;
    };
    Some((a, b))
}

/// Where the values of two operands are; `None` exactly where one has none.
pub fn two_sources(
    alloc: Global,
    a: &Operand,
    b: &Operand,
) -> Result<Option<(Source, Source)>, NoMemory>
    ensures { IfOk result (λ found. found ≡ both pair (source_of a.now) (source_of b.now)) }
{
    let first = source(alloc, a)?;
    let second = source(alloc, b)?;
    Ok(together(first, second))
}

/// Where the values of some operands are, in their order; `None` exactly where one has none.
pub fn sources(alloc: Global, operands: &[Operand]) -> Result<Option<Sources>, NoMemory>
    ensures { IfOk result (λ found. found ≡ sources_of operands.now) }
{
    let mut found = Sources::new(alloc);
    for operand in operands {
        let Some(source) = source(alloc, operand)? else {
            return Ok(None);
        };
        found.push(source)?;
    }
    Ok(Some(found))
}

/// The same of the operands in parentheses; `None` also where it is no group.
pub fn group(alloc: Global, operand: &Operand) -> Result<Option<Sources>, NoMemory>
    ensures { IfOk result (λ found. found ≡ grouped_sources operand.now) }
{
    match operand {
        Operand::Group { items } => Ok(sources(alloc, items.as_slice())?),
        _ => Ok(None),
    }
}
