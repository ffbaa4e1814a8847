//! Laws of the definitions that the contracts of this crate cite. They do nothing when they are called.
ghost use Rattle.std.specs.Prelude.{◌≡◌, ℕ, List};
ghost use Rattle.hilti_words.specs.Words.{Asked, IsAsked};

/// Words ask for one thing.
pub fn one_command()
    ensures { (words : List (List ℕ)) (asked other : Asked) →
        IsAsked words asked → IsAsked words other → asked ≡ other }
{}
