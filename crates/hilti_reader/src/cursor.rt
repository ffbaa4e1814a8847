//! The tokens that are still to be read.
ghost use Rattle.std.specs.Prelude.{◌≡◌, ◌<◌, length, IsTrue, IfOk, OnOk, OnErr};
ghost use Rattle.hilti_grammar.specs.Grammar.{Symbol.One, Keep.Placed, Tree.Spot, Tree.Nothing, sees, has};
ghost use Rattle.hilti_reader.specs.Modules.{grammar, kept_one, mark, words};
ghost use Rattle.hilti_reader.specs.Spelled.{word_tree, number_tree, keyword_tree};
ghost use Rattle.hilti_kinds.specs.Kinds.{IsPiece, keyword_kinds};
ghost use Rattle.std.specs.List.{All};
ghost use Rattle.hilti_grammar.specs.Predictive.{within};
ghost use Rattle.hilti_kinds.specs.declared.kind.Kind.TheVariants as kinds;
ghost use Rattle.hilti_reader.specs.Readers.{ReadsTree, IsAmong, explains, first_place, is_nil, refuses};

use crate::keyword::Keyword;
use crate::stop::Stop;
use hilti_base::Place;
use hilti_kinds::{Kind, Piece};
use hilti_lexer::{Token, TokenKind};
use hilti_module::{Number, Word};
use std::alloc::Global;
use std::collections::VecDeque;
use std::marker::Model;

/// Words that may be names.
pub const WORDS: [Kind; 6] = [
    Kind::Word,
    Kind::At,
    Kind::Unpack,
    Kind::Priority,
    Kind::Version,
    Kind::BytesForm,
];

/// The pieces that are left, and where reading takes memory from.
#[derive(Drop)]
pub struct Cursor {
    pieces: VecDeque<Piece>,
    alloc: Global,
}

impl Model for Cursor {
    ghost use Rattle.std.specs.Prelude.{List};
    ghost use Rattle.std.specs.List.{All};
    ghost use Rattle.hilti_kinds.specs.declared.piece.Piece.{Piece};
    ghost use Rattle.hilti_kinds.specs.Kinds.{IsPiece};

    ghost Value = { List Piece };

    ghost view = { λ cursor. cursor.pieces.items };

    ghost invariant = { λ cursor. All IsPiece cursor.pieces.items };
}

impl Cursor {
    /// A cursor before these pieces.
    pub fn new(alloc: Global, pieces: VecDeque<Piece>) -> Cursor
        requires { All IsPiece pieces.items }
        ensures { result ≡ pieces.items }
    {
        Cursor { pieces, alloc }
    }

    /// Where reading takes memory from.
    pub fn alloc(&self) -> Global {
        self.alloc
    }

    /// Whether the next token is of one of these kinds.
    pub fn sees(&self, kinds: &[Kind]) -> bool
        ensures { result ≡ sees grammar kinds.now self.now }
    {
        match self.pieces.front() {
            Some(piece) => is_among(piece.kind, kinds),
            None => false,
        }
    }

    /// Whether no token is left.
    pub fn is_at_end(&self) -> bool
        ensures { result ≡ is_nil self.now }
    {
        match self.pieces.front() {
            Some(_) => false,
            None => true,
        }
    }

    /// The place of the next token, or that of the text's end where none is left.
    pub fn next_place(&self, end: Place) -> Place
        ensures { result ≡ first_place self.now end }
    {
        match self.pieces.front() {
            Some(piece) => piece.token.place,
            None => end,
        }
    }

    /// Takes the next token, if it is of one of these kinds.
    pub fn take(&mut self, kinds: &[Kind]) -> Result<Token, Stop>
        ensures reads { ReadsTree (One Placed kinds.now) Spot self.old result self.new }
        ensures kind { IfOk result (IsAmong kinds.now) }
        ensures shorter { OnOk result (length self.new < length self.old) }
        ensures stays { OnErr result (self.new ≡ self.old) }
    {
        if !self.sees(kinds) {
            return Err(self.refusal(kinds));
        }
        let Some(piece) = self.pieces.pop_front() else {
            return Err(Stop::Unexpected);
        };
        Ok(piece.token)
    }

    /// Takes the next token, if it is of this kind, and keeps nothing of it.
    pub fn skip(&mut self, kind: Kind) -> Result<(), Stop>
        ensures reads { ReadsTree (mark kind) (λ _. Nothing) self.old result self.new }
        ensures shorter { OnOk result (length self.new < length self.old) }
        ensures stays { OnErr result (self.new ≡ self.old) }
    {
        self.take(&[kind])?;
        Ok(())
    }

    /// Takes a word that may be a name.
    pub fn word(&mut self) -> Result<Word, Stop>
        ensures reads { ReadsTree (One Placed words) word_tree self.old result self.new }
        ensures shorter { OnOk result (length self.new < length self.old) }
        ensures stays { OnErr result (self.new ≡ self.old) }
    {
        let Token { place, kind } = self.take(&WORDS)?;
        match kind {
            TokenKind::Word(bytes) => Ok(Word { place, bytes }),
            _ => unreachable!(),
        }
    }

    /// Takes a word that means something, if it is one of these.
    pub fn keyword(&mut self, kinds: &[Kind]) -> Result<Keyword, Stop>
        requires { IsTrue (within grammar kinds.now keyword_kinds) }
        ensures reads { ReadsTree (One Placed kinds.now) keyword_tree self.old result self.new }
        ensures kind { IfOk result (λ word. IsTrue (has grammar kinds.now word.kind)) }
        ensures shorter { OnOk result (length self.new < length self.old) }
        ensures stays { OnErr result (self.new ≡ self.old) }
    {
        if !self.sees(kinds) {
            return Err(self.refusal(kinds));
        }
        let Some(piece) = self.pieces.pop_front() else {
            return Err(Stop::Unexpected);
        };
        Ok(Keyword {
            place: piece.token.place,
            kind: piece.kind,
        })
    }

    /// Takes a whole number.
    pub fn number(&mut self) -> Result<Number, Stop>
        ensures reads { ReadsTree (kept_one kinds.Number) number_tree self.old result self.new }
        ensures shorter { OnOk result (length self.new < length self.old) }
        ensures stays { OnErr result (self.new ≡ self.old) }
    {
        let Token { place, kind } = self.take(&[Kind::Number])?;
        match kind {
            TokenKind::Number(value) => Ok(Number { place, value }),
            _ => unreachable!(),
        }
    }

    /// Why a token of one of these kinds isn't there.
    fn refusal(&self, kinds: &[Kind]) -> Stop
        ensures refuses { IsTrue (refuses result) }
        ensures explains { IsTrue (explains result kinds.now self.now) }
    {
        if is_among(Kind::Less, kinds) && self.sees(&[Kind::DeepLess]) {
            Stop::TooDeep
        } else {
            Stop::Unexpected
        }
    }
}

/// Whether a kind is one of these.
fn is_among(kind: Kind, kinds: &[Kind]) -> bool
    ensures { result ≡ has grammar kinds.now kind }
{
    for other in kinds {
        if other.is(kind) {
            return true;
        }
    }
    false
}
