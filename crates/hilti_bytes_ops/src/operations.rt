/// What is computed of bytes alone.
#[derive(Clone, Copy, Debug, PartialEq, Eq)]
pub enum BytesUnary {
    /// How many bytes they are.
    Length,
    /// The number of 1 to 8 bytes, the highest first; where they are none or more, ValueError is raised.
    ToUintBig,
    /// The same with the lowest byte first.
    ToUintLittle,
}

/// What is computed of bytes and another value.
#[derive(Clone, Copy, Debug, PartialEq, Eq)]
pub enum BytesBinary {
    /// The bytes of the first and then those of the second; above 16,777,216 bytes, ValueError is raised.
    Join,
    /// The least place of the second in the first; where there is none, IndexError is raised.
    Find,
    /// Whether the first begins with the second.
    Starts,
    /// The byte at a place; past the end, IndexError is raised.
    Byte,
    /// The number that digits of base 10 or 16 write, letters in either case. Where the base is another, there is no
    /// digit, a byte is no digit of the base, or the number is 2^64 or more, ValueError is raised.
    ToInt,
}
