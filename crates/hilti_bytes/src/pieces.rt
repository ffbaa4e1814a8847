ghost use Rattle.std.specs.Prelude.{◌≡◌, ℕ, ◌+◌, ◌<◌, ◌≤◌, ◌++◌, ◌↔◌, List, length, take, drop, slice_index, Err, IfErr, IfOk, IfSome, IsNone, IsOkUnless, IsTrue, OnOk};
ghost use Rattle.std.specs.Result.{OkIff};
ghost use Rattle.hilti_base.specs.declared.refusal.Raise.{Raise};
ghost use Rattle.hilti_bytes.specs.Pieces.{AreTooMany, StandsAt, most_bytes};

use crate::fault::BytesFault;
use hilti_base::{Blob, Raise};
use memchr::memmem;
use std::alloc::Global;

/// The most bytes of a value.
const MOST_BYTES: usize = 16_777_216;

/// So many bytes from a place on; `ValueError` exactly where they reach past the end.
pub fn sub(b: &[u8], at: u64, count: u64) -> Result<&[u8], Raise>
    ensures piece { IfOk result (λ piece. piece.now ≡ take count (drop at b.now)) }
    ensures within { OnOk result (at + count ≤ length b.now) }
    ensures raise { IsOkUnless result Raise.ValueError }
    ensures past { IfErr result (λ _. length b.now < at + count) }
{
    let Some(end) = at.checked_add(count) else {
        return Err(Raise::ValueError);
    };
    if end > b.len() as u64 {
        return Err(Raise::ValueError);
    }
    Ok(&b[at as usize..end as usize])
}

/// The bytes of `a` and then those of `b`; `ValueError` exactly where they are more than 16,777,216, and no memory is
/// taken then.
pub fn join(alloc: Global, a: &[u8], b: &[u8]) -> Result<Blob, BytesFault>
    ensures joined { IfOk result (λ joined. joined ≡ a.now ++ b.now) }
    ensures short { OnOk result (length a.now + length b.now ≤ most_bytes) }
    ensures raise { (raise : Raise) → result ≡ Err (BytesFault.Raise raise)
        → (raise ≡ Raise.ValueError) × AreTooMany a.now b.now }
    ensures long { AreTooMany a.now b.now → result ≡ Err (BytesFault.Raise Raise.ValueError) }
{
    if a.len() > MOST_BYTES || b.len() > MOST_BYTES - a.len() {
        return Err(BytesFault::Raise(Raise::ValueError));
    }
    let mut joined = Blob::of(alloc, a)?;
    joined.append(b)?;
    Ok(joined)
}

/// The least place at which the needle stands; `None` exactly where it stands nowhere. An empty needle stands at 0.
/// It takes time in proportion to both lengths at most.
pub fn find(b: &[u8], needle: &[u8]) -> Option<u64>
    ensures none { IsNone result → (k : ℕ) → ¬ (StandsAt b.now needle.now k) }
    ensures found { IfSome result (λ at. StandsAt b.now needle.now at) }
    ensures least { IfSome result (λ at. (k : ℕ) → k < at → ¬ (StandsAt b.now needle.now k)) }
{
    match memmem::find(b, needle) {
        Some(at) => Some(at as u64),
        None => None,
    }
}

/// Whether the bytes begin with others.
pub fn starts(b: &[u8], front: &[u8]) -> bool
    ensures { IsTrue result ↔ ((rest : List ℕ) × (b.now ≡ front.now ++ rest)) }
{
    b.starts_with(front)
}

/// The byte at a place; `IndexError` exactly past the end.
pub fn byte(b: &[u8], at: u64) -> Result<u8, Raise>
    ensures exact { OkIff result (at < length b.now) (slice_index b.now at) }
    ensures raise { IsOkUnless result Raise.IndexError }
{
    b.get(at as usize).copied().ok_or(Raise::IndexError)
}
