//! Versions of modules.
ghost use Rattle.std.specs.Prelude.{◌≡◌};
ghost use Rattle.hilti_link.specs.InTurn.{Answers};
ghost use Rattle.hilti_link.specs.Versions as spec;

use hilti_base::Refusal;
use hilti_module::Number;

/// The code of a version that is neither 1 nor 2.
const BAD_VERSION: u32 = 27;

/// The version of a module, which says what its instructions on whole numbers do where a result doesn't fit.
#[derive(Clone, Copy, Debug, PartialEq, Eq)]
pub enum Version {
    /// They wrap.
    One,
    /// They are the exact instructions, which raise ValueError.
    Two,
}

/// The version that is written so; without any it is the first.
pub fn version_of(written: &Option<Number>) -> Version
    ensures { result ≡ spec.version_of written.now }
{
    match written {
        Some(number) => version_numbered(number.value),
        None => Version::One,
    }
}

/// The version of this number.
fn version_numbered(number: u64) -> Version
    ensures { result ≡ spec.version_numbered number }
{
    if number == 2 {
        Version::Two
    } else {
        Version::One
    }
}

/// Refuses a written version that is neither 1 nor 2, at its number.
pub fn refuse_version(written: &Option<Number>) -> Result<(), Refusal>
    ensures { Answers result (spec.version_refusal written.now) }
{
    match written {
        Some(number) => refuse_number(number),
        None => Ok(()),
    }
}

/// Refuses a number that is no version.
fn refuse_number(number: &Number) -> Result<(), Refusal>
    ensures { Answers result (spec.number_refusal number.now) }
{
    if is_version(number.value) {
        return Ok(());
    }
    Err(Refusal::At {
        place: number.place,
        code: BAD_VERSION,
    })
}

/// Whether a version has this number.
fn is_version(number: u64) -> bool
    ensures { result ≡ spec.is_version number }
{
    number == 1 || number == 2
}
