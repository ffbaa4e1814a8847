//! Readers of parameters in parentheses.
ghost use Rattle.std.specs.Prelude.{◌<◌, ◌≤◌, length, OnOk};
ghost use Rattle.hilti_grammar.specs.Grammar.{Symbol.Rule};
ghost use Rattle.hilti_reader.specs.Modules.{RuleName.Arguments as arguments, RuleName.Params as parameters, maybe};
ghost use Rattle.hilti_reader.specs.Readers.{ReadsTree};
ghost use Rattle.hilti_read_shapes.specs.Shapes.{arguments_tree, inside_tree};

use crate::read_parameters::read_parameters;
use hilti_kinds::Kind;
use hilti_module::Parameters;
use hilti_reader::{Cursor, Stop};

/// Words that begin types.
pub const TYPES: [Kind; 19] = [
    Kind::Word,
    Kind::At,
    Kind::Unpack,
    Kind::Priority,
    Kind::Version,
    Kind::BytesForm,
    Kind::Ref,
    Kind::Iterator,
    Kind::Tuple,
    Kind::Int,
    Kind::Bool,
    Kind::String,
    Kind::Bytes,
    Kind::Addr,
    Kind::Net,
    Kind::Port,
    Kind::Time,
    Kind::Interval,
    Kind::Callable,
];

/// Reads parameters in their parentheses. There may be none.
pub fn read_arguments(cursor: &mut Cursor) -> Result<Parameters, Stop>
    ensures reads { ReadsTree (Rule arguments) arguments_tree cursor.old result cursor.new }
    ensures shorter { OnOk result (length cursor.new < length cursor.old) }
{
    cursor.skip(Kind::OpenParen)?;
    let parameters = read_inside(cursor)?;
    cursor.skip(Kind::CloseParen)?;
    Ok(parameters)
}

/// Reads parameters, if one begins here.
fn read_inside(cursor: &mut Cursor) -> Result<Parameters, Stop>
    ensures reads { ReadsTree (maybe (Rule parameters)) inside_tree cursor.old result cursor.new }
    ensures shorter { OnOk result (length cursor.new ≤ length cursor.old) }
{
    if !cursor.sees(&TYPES) {
        return Ok(Parameters::new(cursor.alloc()));
    }
    read_parameters(cursor)
}
