/// The number of a virtual thread. Every `u64` names one.
#[derive(Clone, Copy, Debug, PartialEq, Eq, PartialOrd, Ord, Hash)]
pub struct ThreadId {
    pub n: u64,
}

/// The number of a function or hook body of a program, from 0 in textual order.
#[derive(Clone, Copy, Debug, PartialEq, Eq, PartialOrd, Ord, Hash)]
pub struct FnId {
    pub n: u32,
}

/// The number of an object or due entry of one virtual thread, in the order of their making.
#[derive(Clone, Copy, Debug, PartialEq, Eq, PartialOrd, Ord, Hash)]
pub struct Serial {
    pub n: u64,
}

/// A place in a module's text: the module's number in word order from 0, and the line and the column from 1, where a
/// column counts bytes.
#[derive(Clone, Copy, Debug, PartialEq, Eq, PartialOrd, Ord, Hash)]
pub struct Place {
    pub file: u32,
    pub line: u32,
    pub column: u32,
}
