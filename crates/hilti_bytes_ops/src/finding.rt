//! Where bytes stand in others.
ghost use Rattle.std.specs.Prelude.{◌≡◌, nat_eq};
ghost use Rattle.std.specs.List.{starts_with};
ghost use Rattle.hilti_bytes_ops.specs.Finding.{place_of};

use hilti_base::Raise;
use hilti_bytes::{find, starts};

/// The least place at which a needle stands, or `IndexError`.
pub fn place(bytes: &[u8], needle: &[u8]) -> Result<u64, Raise>
    ensures { result ≡ place_of bytes.now needle.now }
{
    match find(bytes, needle) {
        Some(at) => Ok(at),
        None => Err(Raise::IndexError),
    }
}

/// Whether the bytes begin with others.
pub fn begins(bytes: &[u8], front: &[u8]) -> bool
    ensures { result ≡ starts_with nat_eq bytes.now front.now }
{
    starts(bytes, front)
}
