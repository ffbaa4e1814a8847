//! The exceptions that every program begins with.
ghost use Rattle.std.specs.Prelude.{◌≡◌, IfOk};
ghost use Rattle.hilti_typing.specs.Exceptions.{built_in_exceptions, below_top};

use hilti_base::{Blob, NoMemory};
use hilti_parts::{Exception, Exceptions};
use std::alloc::Global;

pub(crate) fn below_exception(alloc: Global, name: &[u8]) -> Result<Exception, NoMemory>
    ensures { IfOk result (λ e. e ≡ below_top name.now) }
{
    Ok(Exception {
        name: Blob::of(alloc, name)?,
        parent: Some(0),
    })
}

pub(crate) fn built_in(alloc: Global) -> Result<Exceptions, NoMemory>
    ensures { IfOk result (λ exceptions. exceptions ≡ built_in_exceptions) }
{
    let mut exceptions = Exceptions::new(alloc);
    exceptions.push(Exception {
        name: Blob::of(alloc, b"Exception")?,
        parent: None,
    })?;
    exceptions.push(below_exception(alloc, b"ValueError")?)?;
    exceptions.push(below_exception(alloc, b"IndexError")?)?;
    exceptions.push(below_exception(alloc, b"DivisionByZero")?)?;
    exceptions.push(below_exception(alloc, b"NullReference")?)?;
    exceptions.push(below_exception(alloc, b"UnsetField")?)?;
    exceptions.push(below_exception(alloc, b"StaleIterator")?)?;
    Ok(exceptions)
}
