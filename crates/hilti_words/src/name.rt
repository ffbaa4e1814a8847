ghost use Rattle.std.specs.Prelude.{◌≡◌, ◌↔◌, IsTrue, IfOk};
ghost use Rattle.std.specs.List.{AllByRecursion};
ghost use Rattle.hilti_words.specs.Names.{AreModuleNames, IsName};

use hilti_base::{Blob, Names, NoMemory};
use std::alloc::Global;

/// How many modules a command may have.
pub const MODULES: usize = 16;

/// A name is UTF-8, isn't empty and doesn't begin with `-`.
pub fn is_name(word: &[u8]) -> bool
    ensures { IsTrue result ↔ IsName word.now }
{
    !word.is_empty() && word[0] != b'-' && str::from_utf8(word).is_ok()
}

/// Whether all words are names.
fn are_names(words: &[Blob]) -> bool
    ensures { IsTrue result ↔ AllByRecursion IsName words.now }
{
    for word in words {
        if !is_name(word.bytes()) {
            return false;
        }
    }
    true
}

/// Whether words are the names of 1 to 16 modules.
pub fn are_module_names(words: &[Blob]) -> bool
    ensures { IsTrue result ↔ AreModuleNames words.now }
{
    !words.is_empty() && words.len() <= MODULES && are_names(words)
}

/// A copy of names.
pub fn copy_names(alloc: Global, names: &[Blob]) -> Result<Names, NoMemory>
    ensures { IfOk result (λ copy. copy ≡ names.now) }
{
    let mut copy = Names::new(alloc);
    for name in names {
        copy.push(name.copy()?)?;
    }
    Ok(copy)
}
