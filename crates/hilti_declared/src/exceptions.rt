//! The exceptions of a program.
ghost use Rattle.std.specs.Prelude.{◌≡◌, ◌++◌, IfOk, map};
ghost use Rattle.hilti_declared.specs.Declaring as spec;
ghost use Rattle.hilti_typing.specs.Exceptions.{below_top, built_in_exceptions};

use hilti_base::{Blob, NoMemory};
use hilti_link::LinkedExceptions;
use hilti_parts::{Exception, Exceptions};
use std::alloc::Global;

/// An exception right below `Exception`.
fn below_exception(alloc: Global, name: &[u8]) -> Result<Exception, NoMemory>
    ensures { IfOk result (λ e. e ≡ below_top name.now) }
{
    Ok(Exception {
        name: Blob::of(alloc, name)?,
        parent: Some(0),
    })
}

/// The built-in exceptions.
fn built_in(alloc: Global) -> Result<Exceptions, NoMemory>
    ensures { IfOk result (λ exceptions. exceptions ≡ built_in_exceptions) }
{
    let mut exceptions = Exceptions::new(alloc);
    exceptions.push(Exception {
        name: Blob::of(alloc, b"Exception")?,
        parent: None,
    })?;
    exceptions.push(below_exception(alloc, b"ValueError")?)?;
    exceptions.push(below_exception(alloc, b"IndexError")?)?;
    exceptions.push(below_exception(alloc, b"DivisionByZero")?)?;
    exceptions.push(below_exception(alloc, b"NullReference")?)?;
    exceptions.push(below_exception(alloc, b"UnsetField")?)?;
    exceptions.push(below_exception(alloc, b"StaleIterator")?)?;
    Ok(exceptions)
}

/// The built-in exceptions, and then the declared ones.
pub fn make_exceptions(alloc: Global, declared: LinkedExceptions) -> Result<Exceptions, NoMemory>
    ensures { IfOk result (λ exceptions. exceptions ≡ spec.exceptions_of declared) }
{
    let mut exceptions = built_in(alloc)?;
    for exception in declared.into_vec() {
        exceptions.push(Exception {
            name: exception.name,
            parent: Some(exception.parent),
        })?;
    }
    Ok(exceptions)
}
