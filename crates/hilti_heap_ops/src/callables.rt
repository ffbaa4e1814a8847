ghost use Rattle.hilti_heap.specs.Held.{all_held};
ghost use Rattle.hilti_heap.specs.Kept.{AreKept};
ghost use Rattle.hilti_heap.specs.Stands.{Meets};
ghost use Rattle.hilti_heap_ops.specs.Meaning as meaning;

use crate::creation::create;
use hilti_base::FnId;
use hilti_heap::{Heap, Object, OpFault};
use hilti_values::{Value, Values};

/// `callable.bind`: a new callable, which holds what its arguments hold. Others hold it too.
pub fn callable_bind(
    heap: &mut Heap,
    function: FnId,
    arguments: Values,
) -> Result<Option<Value>, OpFault>
    requires { AreKept heap.old (λ s. all_held s arguments) }
    ensures { Meets (meaning.callable_bind function.n arguments) result heap.old heap.new }
{
    heap.hold_values(&arguments)?;
    let callable = create(
        heap,
        Object::Bound {
            function,
            values: arguments,
        },
    )?;
    Ok(Some(callable))
}
