//! Whether two types are the same.
ghost use Rattle.std.specs.Prelude.{◌≡◌};
ghost use Rattle.hilti_row_types.specs.Same.{same_type};

use hilti_types::{ValueType, same};

/// Whether two types are the same. It takes no memory.
pub fn is_same(a: &ValueType, b: &ValueType) -> bool
    ensures { result ≡ same_type a.now b.now }
{
    same(a, b)
}
