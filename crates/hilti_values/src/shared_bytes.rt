ghost use Rattle.std.specs.Prelude.{◌≡◌, [], IfOk};

use hilti_base::{Blob, NoMemory};
use std::alloc::Global;
use std::marker::Model;
use std::sync::Arc;

/// Bytes behind a handle that may be shared, which contracts see as the list of the bytes. No bytes take no memory.
#[derive(Debug, Drop)]
pub struct SharedBytes {
    shared: Option<Arc<Blob>>,
}

impl Model for SharedBytes {
    ghost use Rattle.std.specs.Prelude.{List, ℕ};

    ghost Value = { List ℕ };

    ghost use Rattle.std.specs.Prelude.{[]};
    ghost use Rattle.std.specs.Option.{option_map, unwrap_or};

    ghost view = { λ bytes. unwrap_or (option_map (λ handle. handle.value) bytes.shared) [] };
}

impl SharedBytes {
    /// No bytes. It takes no memory.
    pub fn empty() -> SharedBytes
        ensures { result ≡ [] }
    {
        SharedBytes { shared: None }
    }

    /// A copy of the bytes, behind a handle of their own.
    pub fn of(alloc: Global, bytes: &[u8]) -> Result<SharedBytes, NoMemory>
        ensures { IfOk result (λ shared. shared ≡ bytes.now) }
    {
        let blob = Blob::of(alloc, bytes)?;
        let handle = Arc::new(alloc, blob)?;
        Ok(SharedBytes {
            shared: Some(handle),
        })
    }

    /// The same bytes, with no copy of them. It is refused only where no number counts the handles.
    pub fn share(&self) -> Result<SharedBytes, NoMemory>
        ensures { IfOk result (λ shared. shared ≡ self.now) }
    {
        match &self.shared {
            Some(handle) => {
                let another = handle.clone()?;
                Ok(SharedBytes {
                    shared: Some(another),
                })
            }
            None => Ok(SharedBytes { shared: None }),
        }
    }

    pub fn bytes(&self) -> &[u8]
        ensures { result.now ≡ self.now }
    {
        match &self.shared {
            Some(handle) => handle.bytes(),
            None => &[],
        }
    }
}
