//! Codes of refusals of bodies.

/// The code of a label that is declared again.
pub const DUPLICATE: u32 = 20;

/// The code of a name or a label that means nothing.
pub const UNKNOWN: u32 = 21;

/// The code of a handler whose name isn't an exception, or whose slot isn't a local of type string.
pub const BAD_KIND: u32 = 30;

/// The code of a block without an ending instruction.
pub const NO_END: u32 = 33;

/// The code of an instruction behind an ending one.
pub const AFTER_END: u32 = 34;
