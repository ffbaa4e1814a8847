ghost use Rattle.std.specs.Prelude.{Some, Ok};
ghost use Rattle.hilti_heap.specs.Kept.{Kept};
ghost use Rattle.hilti_heap.specs.Stands.{Meets};
ghost use Rattle.hilti_heap_ops.specs.Meaning as meaning;

use hilti_values::Value;

/// `ref.is_null`: whether a reference, an iterator or a callable is Null. No heap is looked at.
pub fn ref_is_null(operand: &Value) -> Value
    ensures { (h : Kept) → Meets (meaning.ref_is_null operand.now) (Ok (Some result)) h h }
{
    Value::Bool(matches!(operand, Value::Null))
}
