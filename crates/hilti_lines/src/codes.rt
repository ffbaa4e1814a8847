//! Codes of refusals of lines.

/// The code of a target that means nothing.
pub const UNKNOWN: u32 = 21;

/// The code of a wrong number of operands, or of those in parentheses.
pub const BAD_COUNT: u32 = 31;

/// The code of a target that is missing, not allowed, no variable, or of another type.
pub const BAD_TARGET: u32 = 32;

/// The code of a return that doesn't belong in its body.
pub const BAD_RETURN: u32 = 37;

/// The code of `hook.stop` outside a hook body.
pub const OUTSIDE_HOOK: u32 = 38;

/// The code of a mnemonic that no instruction has.
pub const UNKNOWN_MNEMONIC: u32 = 39;
