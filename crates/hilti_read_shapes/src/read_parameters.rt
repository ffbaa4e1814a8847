//! Readers of parameters.
ghost use Rattle.std.specs.Prelude.{◌≡◌, ◌<◌, [], ◌∷◌, length, IfOk, OnOk};
ghost use Rattle.hilti_grammar.specs.Grammar.{Symbol.Rule};
ghost use Rattle.hilti_reader.specs.Modules.{RuleName.Params as parameters, typed_word};
ghost use Rattle.hilti_reader.specs.Readers.{ReadsTree};
ghost use Rattle.hilti_read_shapes.specs.Shapes.{parameter_tree, parameters_tree};

use hilti_kinds::Kind;
use hilti_module::{Parameter, Parameters};
use hilti_read_types::read_type;
use hilti_reader::{Cursor, Stop};

/// Reads a type and a word.
pub fn read_parameter(cursor: &mut Cursor) -> Result<Parameter, Stop>
    ensures reads { ReadsTree typed_word parameter_tree cursor.old result cursor.new }
    ensures shorter { OnOk result (length cursor.new < length cursor.old) }
{
    let kind = read_type(cursor)?;
    let name = cursor.word()?;
    Ok(Parameter { kind, name })
}

/// Reads one or more parameters with commas between them.
pub fn read_parameters(cursor: &mut Cursor) -> Result<Parameters, Stop>
    ensures reads { ReadsTree (Rule parameters) parameters_tree cursor.old result cursor.new }
    ensures some { IfOk result (λ parameters. 0 < length parameters) }
    ensures shorter { OnOk result (length cursor.new < length cursor.old) }
{
    let mut parameters = Parameters::new(cursor.alloc());
    let first = read_parameter(cursor)?;
    parameters.push(first)?;
    'parameters: while cursor.sees(&[Kind::Comma]) {
        cursor.skip(Kind::Comma)?;
        let next = read_parameter(cursor)?;
        parameters.push(next)?;
    }
    Ok(parameters)
}
