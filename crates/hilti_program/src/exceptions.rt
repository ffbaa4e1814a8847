//! Which exceptions stand above which.
ghost use Rattle.std.specs.Prelude.{◌↔◌, ◌<◌, IsTrue, length};
ghost use Rattle.hilti_typing.specs.Exceptions.{ExceptionTree, IsBelow};

use hilti_parts::Exception;

/// Whether an exception is another or stands below it. It goes up from parent to parent, each of which stands before
/// what is below it.
pub fn is_below(exceptions: &[Exception], exception: u32, other: u32) -> bool
    requires tree { ExceptionTree exceptions.now }
    requires there { exception < length exceptions.now }
    ensures { IsTrue result ↔ IsBelow exceptions.now exception other }
{
    let mut at = exception;
    while at != other {
        match exceptions[at as usize].parent {
            Some(parent) => at = parent,
            None => return false,
        }
    }
    true
}
