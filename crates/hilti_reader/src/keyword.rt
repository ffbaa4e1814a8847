use hilti_base::Place;
use hilti_kinds::Kind;

/// A word that means something, and its place.
#[derive(Clone, Copy, Debug, PartialEq, Eq)]
pub struct Keyword {
    pub place: Place,
    pub kind: Kind,
}
