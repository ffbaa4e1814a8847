//! What operands name.
ghost use Rattle.std.specs.Prelude.{◌≡◌};
ghost use Rattle.hilti_parts.specs.Named.{named_block};
ghost use Rattle.hilti_typing.specs.Fits.{exception_number, field_number};
ghost use Rattle.hilti_rows.specs.Resolving.{function, declared_struct};

use hilti_base::FnId;
use hilti_parts::Operand;
use hilti_types::Inner;

/// The block that an operand names.
pub fn block_of(operand: &Operand) -> Option<u32>
    ensures { result ≡ named_block operand.now }
{
    match operand {
        Operand::Block { n } => Some(*n),
        _ => None,
    }
}

/// The function that an operand names.
pub fn function_of(operand: &Operand) -> Option<FnId>
    ensures { result ≡ function operand.now }
{
    match operand {
        Operand::Function { f } => Some(*f),
        _ => None,
    }
}

/// The exception that an operand names.
pub fn exception_of(operand: &Operand) -> Option<u32>
    ensures { result ≡ exception_number operand.now }
{
    match operand {
        Operand::Exception { n } => Some(*n),
        _ => None,
    }
}

/// The field that an operand names.
pub fn field_of(operand: &Operand) -> Option<u32>
    ensures { result ≡ field_number operand.now }
{
    match operand {
        Operand::Field { n } => Some(*n),
        _ => None,
    }
}

/// The declared struct that an operand asks to make.
pub fn struct_of(operand: &Operand) -> Option<u32>
    ensures { result ≡ declared_struct operand.now }
{
    match operand {
        Operand::New {
            what: Inner::Struct { n },
        } => Some(*n),
        _ => None,
    }
}
