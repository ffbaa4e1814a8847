//! Laws of the definitions that the contracts of this crate cite. They do nothing when they are called.
ghost use Rattle.std.specs.Prelude.{◌≡◌, ℕ, ◌+◌, ◌*◌, ◌<◌, ◌≤◌, ◌∷◌, ◌++◌, ◌↔◌, List, []};
ghost use Rattle.std.specs.Char.{digit_value};
ghost use Rattle.std.specs.Fmt.{decimal};
ghost use Rattle.std.specs.Str.Parse.{digits_value};
ghost use Rattle.hilti_base.specs.Numerals.{IsNumber, IsSplit, greatest};

/// A digit counts for itself, and each further digit makes a number base times as large and adds itself.
pub fn next_digit()
    ensures first { (base digit : ℕ) → digits_value base (digit ∷ []) ≡ digit_value digit }
    ensures next { (base digit : ℕ) (text : List ℕ)
        → digits_value base (text ++ digit ∷ [])
        ≡ digits_value base text * base + digit_value digit }
{}

/// The texts that are read as a number up to a greatest of 64 bits are its decimal digits and no others, so a text is
/// read as one number, and a number has one text.
pub fn one_text()
    ensures { (most : ℕ) (text : List ℕ) (n : ℕ) → most ≤ greatest
        → IsNumber most text n ↔ ((text ≡ decimal n) × (n ≤ most)) }
{}

/// A text is split in one way at the first of a byte.
pub fn one_split()
    ensures { (byte : ℕ) (text front back other_front other_back : List ℕ)
        → IsSplit byte text front back → IsSplit byte text other_front other_back
        → (front ≡ other_front) × (back ≡ other_back) }
{}
