use hilti_base::FnId;
use hilti_record::Record;
use hilti_values::{Value, Values};

/// What a heap keeps.
#[derive(Debug, Drop)]
pub enum Object {
    /// The fields of a struct.
    Struct(Record<Value>),
    /// A callable: a function, and the arguments that are bound to it.
    Bound { function: FnId, values: Values },
}
