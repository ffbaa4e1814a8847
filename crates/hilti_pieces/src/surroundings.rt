//! What the tokens before a token tell of it.
ghost use Rattle.std.specs.Prelude.{◌≡◌, ◌+◌, ◌-◌, ◌<◌, ◌^◌, [], ◌∷◌, cond, List};
ghost use Rattle.hilti_kinds.specs.declared.kind.Kind.{Kind};
ghost use Rattle.hilti_kinds.specs.Kinds.{is};
ghost use Rattle.hilti_pieces.specs.Pieces as pieces;
ghost use Rattle.hilti_pieces.specs.Surroundings.{Describes, HasRoom, TellsPiece};

use hilti_kinds::Kind;

/// How many `<` may be open at most.
const DEEPEST: usize = 64;

/// How many marks of a kind, and of the kind that closes it, stand before a token.
#[derive(Clone, Copy)]
pub struct Marks {
    pub opening: usize,
    pub closing: usize,
}

impl Marks {
    /// The marks before the token behind one of this kind.
    fn behind(self, kind: Kind, opens: Kind, closes: Kind) -> Marks
        requires opening { self.opening + 1 < 2 ^ 64 }
        requires closing { self.closing + 1 < 2 ^ 64 }
        ensures opening { result.opening ≡ cond (is opens kind) 1 0 + self.opening }
        ensures closing { result.closing ≡ cond (is closes kind) 1 0 + self.closing }
    {
        Marks {
            opening: usize::from(opens.is(kind)) + self.opening,
            closing: usize::from(closes.is(kind)) + self.closing,
        }
    }

    /// How many are open.
    fn depth(self) -> usize
        ensures { result ≡ self.opening - self.closing }
    {
        self.opening.saturating_sub(self.closing)
    }
}

/// What is open before a token, and what stands right before it.
#[derive(Clone, Copy)]
pub struct Surroundings {
    pub parens: Marks,
    pub angles: Marks,
    pub in_shape: bool,
    pub behind_shape_word: bool,
    pub behind_token: bool,
}

impl Surroundings {
    /// Those of the first token.
    pub fn new() -> Surroundings
        ensures { Describes result [] }
    {
        let none = Marks {
            opening: 0,
            closing: 0,
        };
        Surroundings {
            parens: none,
            angles: none,
            in_shape: false,
            behind_shape_word: false,
            behind_token: false,
        }
    }

    /// Those of the token behind one of this kind.
    pub fn behind(self, kind: Kind) -> Surroundings
        requires { HasRoom self }
        ensures { (before : List Kind) → Describes self before → Describes result (kind ∷ before) }
    {
        let opens_shape = Kind::OpenBrace.is(kind) && self.behind_shape_word;
        Surroundings {
            parens: self.parens.behind(kind, Kind::OpenParen, Kind::CloseParen),
            angles: self.angles.behind(kind, Kind::Less, Kind::Greater),
            in_shape: !Kind::CloseBrace.is(kind) && (opens_shape || self.in_shape),
            behind_shape_word: is_shape_word(kind),
            behind_token: !Kind::LineEnd.is(kind),
        }
    }

    /// The kind of the piece that a token of this kind is; `None` for a line end that is none.
    pub fn piece_kind(self, kind: Kind) -> Option<Kind>
        ensures { TellsPiece self kind result }
    {
        if Kind::LineEnd.is(kind) {
            let is_within = self.parens.depth() > 0 || self.in_shape;
            if self.behind_token && !is_within {
                Some(kind)
            } else {
                None
            }
        } else if Kind::Less.is(kind) && self.angles.depth() >= DEEPEST {
            Some(Kind::DeepLess)
        } else {
            Some(kind)
        }
    }
}

/// Whether a kind is that of a word before the braces of a shape.
fn is_shape_word(kind: Kind) -> bool
    ensures { result ≡ pieces.is_shape_word kind }
{
    Kind::Struct.is(kind) || Kind::Enum.is(kind) || Kind::Overlay.is(kind)
}
