//! Literals where a value of a type is asked.
ghost use Rattle.std.specs.Prelude.{◌≡◌};
ghost use Rattle.hilti_resolve.specs.Literals.{literal_refusal};
ghost use Rattle.hilti_resolve.specs.LiteralValues.{literal_value};
ghost use Rattle.hilti_scope.specs.Scopes.{means};
ghost use Rattle.hilti_operands.specs.Answers.{Told};
ghost use Rattle.hilti_operands.specs.Values.{literal_of_type};

use crate::codes::refusal;
use crate::view::BodyView;
use hilti_base::Refusal;
use hilti_module::Literal;
use hilti_parts::Operand;
use hilti_resolve::read_literal as read_tree;
use hilti_row_types::copy_type;
use hilti_types::ValueType;
use std::alloc::Global;

/// A literal of a type. It is refused with code 21, 30 or 36 where it is none.
pub fn read_literal(
    alloc: Global,
    body: &BodyView<'_>,
    kind: &ValueType,
    literal: &Literal,
) -> Result<Operand, Refusal>
    ensures { Told result (literal_of_type kind.now
        (literal_refusal body.now.tables.now.types (means body.now.scope.now) kind.now literal.now)
        (literal_value body.now.tables.now.types (means body.now.scope.now) literal.now)) }
{
    match read_tree(body.scope, &body.tables.types, kind, literal) {
        Ok(value) => {
            let kind = copy_type(alloc, kind)?;
            Ok(Operand::Literal { kind, value })
        }
        Err(Refusal::At { place, code }) => Err(refusal(place, code)),
        Err(Refusal::NoMemory) => Err(Refusal::NoMemory),
    }
}
