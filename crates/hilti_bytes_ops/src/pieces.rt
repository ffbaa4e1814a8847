//! Values made of the bytes of others.
ghost use Rattle.std.specs.Prelude.{◌≡◌, IfOk};
ghost use Rattle.hilti_bytes_ops.specs.Computing.{joined_of, piece_of};

use hilti_base::{NoMemory, Raise};
use hilti_bytes::{BytesFault, join, sub};
use hilti_values::{SharedBytes, Value};
use std::alloc::Global;

/// The bytes of the first and then those of the second, or `ValueError`.
pub fn joined(alloc: Global, a: &[u8], b: &[u8]) -> Result<Result<Value, Raise>, NoMemory>
    ensures { IfOk result (λ outcome. outcome ≡ joined_of a.now b.now) }
{
    match join(alloc, a, b) {
        Ok(both) => {
            let bytes = SharedBytes::of(alloc, both.bytes())?;
            Ok(Ok(Value::Bytes(bytes)))
        }
        Err(BytesFault::Raise(raise)) => Ok(Err(raise)),
        Err(BytesFault::NoMemory) => Err(NoMemory),
    }
}

/// So many bytes from a place on, or `ValueError`.
pub fn piece(
    alloc: Global,
    bytes: &[u8],
    at: u64,
    count: u64,
) -> Result<Result<Value, Raise>, NoMemory>
    ensures { IfOk result (λ outcome. outcome ≡ piece_of bytes.now at count) }
{
    match sub(bytes, at, count) {
        Ok(part) => {
            let bytes = SharedBytes::of(alloc, part)?;
            Ok(Ok(Value::Bytes(bytes)))
        }
        Err(raise) => Ok(Err(raise)),
    }
}
