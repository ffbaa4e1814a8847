ghost use Rattle.std.specs.Prelude.{◌≡◌, ℕ, List, length};

/// A value with a journal: a list of entries that those who hold the value add to.
pub trait Journalled {
    /// What one entry says.
    type Entry;
    /// What the value is about.
    type About;

    ghost entries: { Self → List Self.Entry };

    // The number of the pass that made an entry.
    ghost maker: { Self.Entry → ℕ };

    // It stays the same while the value is in a turn.
    ghost about: { Self → Self.About };

    /// The number of entries.
    fn count(&self) -> u64
        ensures { result ≡ length (entries self.now) };
}
