//! What names mean.
ghost use Rattle.std.specs.Prelude.{◌≡◌};
ghost use Rattle.hilti_scope.specs.Meanings as spec;

/// What a name means where it stands. The numbers count in textual order over all modules: structs, enums and overlays
/// together from 0, exceptions from 7 behind the built-in ones, globals from 0, functions together with hook bodies from
/// 0, and hooks from 0.
#[derive(Clone, Copy, Debug, PartialEq, Eq)]
pub enum Meaning {
    /// Nothing, or a type or an exception that is declared there or later.
    Nothing,
    /// A parameter or a local, with its number: parameters count from 0, and locals behind them.
    Local { slot: usize },
    Struct { n: u32 },
    Enum { n: u32 },
    Overlay { n: u32 },
    Exception { n: u32 },
    Global { n: u32 },
    Function { n: u32 },
    Hook { n: u32 },
}

impl Meaning {
    /// What the item `at` declares, as the item `here` sees it: a type that is declared there or later means nothing.
    pub(crate) fn seen_from(self, here: usize, at: usize) -> Meaning
        ensures { result ≡ spec.seen_from here at self }
    {
        if self.is_type() && here <= at {
            Meaning::Nothing
        } else {
            self
        }
    }

    /// Whether it is a type, which an exception is too.
    fn is_type(self) -> bool
        ensures { result ≡ spec.is_type self }
    {
        match self {
            Meaning::Struct { .. } => true,
            Meaning::Enum { .. } => true,
            Meaning::Overlay { .. } => true,
            Meaning::Exception { .. } => true,
            _ => false,
        }
    }
}
