//! Laws of the definitions that the contracts of this crate cite. They do nothing when they are called.
ghost use Rattle.std.specs.Prelude.{◌≡◌, ℕ, List};
ghost use Rattle.hilti_classifier.specs.declared.classifier.Rule.{Rule};
ghost use Rattle.hilti_classifier.specs.declared.want.Field.{Field};
ghost use Rattle.hilti_classifier.specs.Matches.{IsFirstMatch};

/// A query has one first match at most.
pub fn one_answer<K: Eq, V>()
    ensures { (rules : List (Rule K V)) (query : List (Field K)) (at other : ℕ)
        → IsFirstMatch K.eq rules query at → IsFirstMatch K.eq rules query other → at ≡ other }
{}
