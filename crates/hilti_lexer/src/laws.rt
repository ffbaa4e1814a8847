//! Laws of the definitions that the contracts of this crate cite. They do nothing when they are called.
ghost use Rattle.std.specs.Prelude.{◌≡◌, ℕ, List};
ghost use Rattle.hilti_base.specs.declared.names.Place.{Place};
ghost use Rattle.hilti_lexer.specs.declared.token.Token.{Token};
ghost use Rattle.hilti_lexer.specs.Readings.{Lexes, Refuses};

/// A text has one list of tokens at most.
pub fn one_reading()
    ensures { (file : ℕ) (text : List ℕ) (tokens others : List Token)
        → Lexes file text tokens → Lexes file text others → tokens ≡ others }
{}

/// No text both has tokens and is refused.
pub fn read_or_refused()
    ensures { (file : ℕ) (text : List ℕ) (tokens : List Token) (code : ℕ) (place : Place)
        → Lexes file text tokens → ¬ (Refuses file text code place) }
{}

/// A text is refused with one code and one place.
pub fn one_refusal()
    ensures { (file : ℕ) (text : List ℕ) (code other_code : ℕ) (place other_place : Place)
        → Refuses file text code place → Refuses file text other_code other_place
        → (code ≡ other_code) × (place ≡ other_place) }
{}
