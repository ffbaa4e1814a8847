//! Readers of marks that are kept.
ghost use Rattle.std.specs.Prelude.{◌≡◌, ◌<◌, length, OnOk};
ghost use Rattle.hilti_kinds.specs.declared.kind.Kind.TheVariants as kinds;
ghost use Rattle.hilti_reader.specs.Placed.{ReadsMark};

use crate::cursor::Cursor;
use crate::stop::Stop;
use hilti_base::Place;
use hilti_kinds::Kind;

/// Reads a `*`.
pub fn read_star(cursor: &mut Cursor) -> Result<Place, Stop>
    ensures reads { ReadsMark kinds.Star 42 cursor.old result cursor.new }
    ensures shorter { OnOk result (length cursor.new < length cursor.old) }
{
    let star = cursor.take(&[Kind::Star])?;
    Ok(star.place)
}

/// Reads an `@`.
pub fn read_at_sign(cursor: &mut Cursor) -> Result<Place, Stop>
    ensures reads { ReadsMark kinds.AtSign 64 cursor.old result cursor.new }
    ensures shorter { OnOk result (length cursor.new < length cursor.old) }
{
    let at = cursor.take(&[Kind::AtSign])?;
    Ok(at.place)
}

/// Reads a `(`.
pub fn read_open_paren(cursor: &mut Cursor) -> Result<Place, Stop>
    ensures reads { ReadsMark kinds.OpenParen 40 cursor.old result cursor.new }
    ensures shorter { OnOk result (length cursor.new < length cursor.old) }
{
    let paren = cursor.take(&[Kind::OpenParen])?;
    Ok(paren.place)
}
