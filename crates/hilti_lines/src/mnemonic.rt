//! Mnemonics.
ghost use Rattle.std.specs.Prelude.{◌≡◌, ◌++◌, codes};
ghost use Rattle.hilti_resolve.specs.Answering.{Makes};
ghost use Rattle.hilti_table.specs.Mnemonics.{named};
ghost use Rattle.hilti_operands.specs.Answers.{Told};
ghost use Rattle.hilti_lines.specs.Lines as spec;

use crate::codes::UNKNOWN_MNEMONIC;
use hilti_base::{Blob, NoMemory, Refusal};
use hilti_module::Mnemonic;
use hilti_operands::refusal;
use hilti_table::op_of;
use hilti_types::Op;
use std::alloc::Global;

/// Two words with a `.` between them.
fn joined(alloc: Global, first: &[u8], second: &[u8]) -> Result<Blob, NoMemory>
    ensures { Makes result (first.now ++ codes "." ++ second.now) }
{
    let mut word = Blob::of(alloc, first)?;
    word.append(b".".as_slice())?;
    word.append(second)?;
    Ok(word)
}

/// The instruction of a mnemonic, if there is one.
fn named_op(alloc: Global, mnemonic: &Mnemonic) -> Result<Option<Op>, NoMemory>
    ensures { Makes result (named (spec.spelled mnemonic.now)) }
{
    let first = mnemonic.first.bytes.bytes();
    match &mnemonic.second {
        Some(second) => {
            let word = joined(alloc, first, second.bytes.bytes())?;
            Ok(op_of(word.bytes()))
        }
        None => Ok(op_of(first)),
    }
}

/// The instruction of a mnemonic. Where there is none, its first word is refused with code 39.
pub fn read_mnemonic(alloc: Global, mnemonic: &Mnemonic) -> Result<Op, Refusal>
    ensures { Told result (spec.read_mnemonic mnemonic.now) }
{
    match named_op(alloc, mnemonic)? {
        Some(op) => Ok(op),
        None => Err(refusal(mnemonic.first.place, UNKNOWN_MNEMONIC)),
    }
}
