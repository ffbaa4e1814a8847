//! The lines that calls end with.
ghost use Rattle.std.specs.Prelude.{◌≡◌, ◌<◌, length, IfOk, slice_get};
ghost use Rattle.hilti_effects.specs.Effect as effect;

use hilti_base::{Blob, FnId, NoMemory};
use hilti_print::escaped;
use hilti_program::Program;
use std::alloc::Global;

/// The name of a function of a program.
fn name(program: &Program, f: FnId) -> &[u8]
    requires { f.n < length program.now.functions }
    ensures { result.now ≡ effect.name_of program.now f }
{
    program.function(f).name.bytes()
}

/// The name of an exception of a program.
fn exception_name(program: &Program, exception: u32) -> &[u8]
    requires { exception < length program.now.exceptions }
    ensures { result.now ≡ effect.exception_name (slice_get program.now.exceptions exception) }
{
    program.exception(exception).name.bytes()
}

/// The line of a call of this function that an exception ended, with the exception's text.
pub fn uncaught_line(
    alloc: Global,
    program: &Program,
    exception: u32,
    text: &[u8],
    f: FnId,
) -> Result<Blob, NoMemory>
    requires function { f.n < length program.now.functions }
    requires exception { exception < length program.now.exceptions }
    ensures { IfOk result (λ line. line ≡ effect.uncaught_line program.now exception text.now f) }
{
    let mut line = Blob::of(alloc, b"! uncaught ")?;
    line.append(exception_name(program, exception))?;
    line.append(b" \"")?;
    escaped(&mut line, text)?;
    line.append(b"\" in ")?;
    line.append(name(program, f))?;
    Ok(line)
}

/// The line of a call of this function that spent its fuel.
pub fn spent_line(alloc: Global, program: &Program, f: FnId) -> Result<Blob, NoMemory>
    requires { f.n < length program.now.functions }
    ensures { IfOk result (λ line. line ≡ effect.spent_line program.now f) }
{
    let mut line = Blob::of(alloc, b"! out of fuel in ")?;
    line.append(name(program, f))?;
    Ok(line)
}
