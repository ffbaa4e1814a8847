use hilti_heap::Heap;
use hilti_values::Value;

/// What lasts from one call of a thread to the next.
#[derive(Debug, Drop)]
pub struct Memory {
    pub globals: Vec<Value>,
    pub heap: Heap,
}
