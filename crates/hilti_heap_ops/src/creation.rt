ghost use Rattle.std.specs.Prelude.{IfOk};
ghost use Rattle.hilti_heap.specs.Stands.{Creates};

use hilti_base::NoMemory;
use hilti_heap::{Heap, Object};
use hilti_values::Value;

/// A new object, which the result alone refers to. What the object holds was held for it before. It is refused where
/// memory is wanting, and after 2^63 serials.
pub fn create(heap: &mut Heap, object: Object) -> Result<Value, NoMemory>
    ensures { IfOk result (λ value. Creates object value heap.old heap.new) }
{
    if heap.is_full() {
        return Err(NoMemory);
    }
    match heap.make(object) {
        Ok(reference) => {
            heap.hold(&reference)?;
            Ok(Value::Ref(reference))
        }
        Err((_object, error)) => Err(error),
    }
}
