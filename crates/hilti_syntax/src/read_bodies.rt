//! Readers of bodies.
ghost use Rattle.std.specs.Prelude.{◌≡◌, ◌<◌, ◌≤◌, length, OnOk};
ghost use Rattle.hilti_grammar.specs.Grammar.{Symbol.Rule, Symbol.Many};
ghost use Rattle.hilti_reader.specs.Modules.{RuleName.LineText as a_line, RuleName.BodyText as a_body, local_line};
ghost use Rattle.hilti_reader.specs.Readers.{ReadsTree};
ghost use Rattle.hilti_syntax.specs.Items.{local_tree, body_tree, locals_tree, lines_tree};

use crate::read_lines::read_line;
use hilti_kinds::Kind;
use hilti_module::{Body, Lines, Parameter, Parameters};
use hilti_read_shapes::read_parameter;
use hilti_reader::{Cursor, Stop, read_close_brace};

/// What begins a line: a word, reserved or not, or the `@` of a label.
const LINE_STARTS: [Kind; 40] = [
    Kind::Word,
    Kind::At,
    Kind::Unpack,
    Kind::Priority,
    Kind::Version,
    Kind::BytesForm,
    Kind::Module,
    Kind::Type,
    Kind::Global,
    Kind::Hook,
    Kind::Catch,
    Kind::Void,
    Kind::Struct,
    Kind::Enum,
    Kind::Overlay,
    Kind::Exception,
    Kind::Bool,
    Kind::Int,
    Kind::String,
    Kind::Bytes,
    Kind::Addr,
    Kind::Net,
    Kind::Port,
    Kind::Time,
    Kind::Interval,
    Kind::Callable,
    Kind::Tuple,
    Kind::Iterator,
    Kind::Ref,
    Kind::Timer,
    Kind::TimerMgr,
    Kind::List,
    Kind::Vector,
    Kind::Set,
    Kind::Map,
    Kind::Classifier,
    Kind::True,
    Kind::False,
    Kind::Null,
    Kind::AtSign,
];

/// Reads a local up to the end of its line.
pub fn read_local(cursor: &mut Cursor) -> Result<Parameter, Stop>
    ensures reads { ReadsTree local_line local_tree cursor.old result cursor.new }
    ensures shorter { OnOk result (length cursor.new < length cursor.old) }
{
    cursor.skip(Kind::Local)?;
    let local = read_parameter(cursor)?;
    cursor.skip(Kind::LineEnd)?;
    Ok(local)
}

/// Reads any number of locals.
pub fn read_locals(cursor: &mut Cursor) -> Result<Parameters, Stop>
    ensures reads { ReadsTree (Many local_line) locals_tree cursor.old result cursor.new }
    ensures shorter { OnOk result (length cursor.new ≤ length cursor.old) }
{
    let mut locals = Parameters::new(cursor.alloc());
    'locals: while cursor.sees(&[Kind::Local]) {
        let next = read_local(cursor)?;
        locals.push(next)?;
    }
    Ok(locals)
}

/// Reads any number of lines.
pub fn read_lines(cursor: &mut Cursor) -> Result<Lines, Stop>
    ensures reads { ReadsTree (Many (Rule a_line)) lines_tree cursor.old result cursor.new }
    ensures shorter { OnOk result (length cursor.new ≤ length cursor.old) }
{
    let mut lines = Lines::new(cursor.alloc());
    'lines: while cursor.sees(&LINE_STARTS) {
        let next = read_line(cursor)?;
        lines.push(next)?;
    }
    Ok(lines)
}

/// Reads a body from its `{` to the end of its last line.
pub fn read_body(cursor: &mut Cursor) -> Result<Body, Stop>
    ensures reads { ReadsTree (Rule a_body) body_tree cursor.old result cursor.new }
    ensures shorter { OnOk result (length cursor.new < length cursor.old) }
{
    cursor.skip(Kind::OpenBrace)?;
    cursor.skip(Kind::LineEnd)?;
    let locals = read_locals(cursor)?;
    let lines = read_lines(cursor)?;
    let close = read_close_brace(cursor)?;
    cursor.skip(Kind::LineEnd)?;
    Ok(Body {
        locals,
        lines,
        close,
    })
}
