// The pieces of a line, which borrow the page.
ghost use Rattle.std.specs.Prelude.{◌≡◌, ℕ, List, MatchOption};
ghost use Rattle.text.specs.Pieces.{said, line_of, unsigned_of, signed_of, Sound, Parted};
ghost use Rattle.text.specs.Words.{Word as WordText};

use crate::cutting::cut;
use crate::numbers::signed_number;

// What a piece of a line is taken as.
// An array of a type that holds a reference, as a piece does, gets no proof where its length is a parameter; one of a type parameter does.
pub trait FromText<'a>: Copy {
    // Its stretch of the page.
    ghost said: { Self → List ℕ };

    // It stands on this line, and is right.
    ghost is_sound: { ℕ → Self → Type 0 };

    fn of(text: &'a [u8], line: usize) -> Self
        ensures says { said result ≡ text.now }
        ensures sound { is_sound line result };
}

// Both cases hold their stretch of the page and its line: a word or a number is one of two things, each whole.
#[derive(Clone, Copy, Debug, PartialEq, Eq)]
pub enum Piece<'a> {
    Word {
        text: &'a [u8],
        line: usize,
    },
    Number {
        text: &'a [u8],
        line: usize,
        value: i32,
    },
}

// A number where the text writes one, else a word.
impl<'a> FromText<'a> for Piece<'a> {
    ghost said = { said };

    ghost is_sound = { Sound };

    fn of(text: &'a [u8], line: usize) -> Piece<'a> {
        match signed_number(text) {
            Some(value) => Piece::Number { text, line, value },
            None => Piece::Word { text, line },
        }
    }
}

impl<'a> Piece<'a> {
    // Its stretch of the page.
    pub fn text(self) -> &'a [u8]
        ensures { result.now ≡ said self.entry }
    {
        let (Piece::Word { text, .. } | Piece::Number { text, .. }) = self;
        text
    }

    // The number of its line, from 1 on.
    pub fn line(self) -> usize
        ensures { result ≡ line_of self.entry }
    {
        let (Piece::Word { line, .. } | Piece::Number { line, .. }) = self;
        line
    }

    // Its number, if it is one and not under 0.
    pub fn unsigned(self) -> Option<u32>
        ensures { result ≡ unsigned_of self.entry }
    {
        u32::try_from(self.signed()?).ok()
    }

    // Its number, if it is one.
    pub fn signed(self) -> Option<i32>
        ensures { result ≡ signed_of self.entry }
    {
        match self {
            Piece::Number { value, .. } => Some(value),
            Piece::Word { .. } => None,
        }
    }
}

// The text as one piece.
fn one<'a, P: FromText<'a>>(text: &'a [u8], line: usize) -> Option<P>
    ensures { MatchOption result (WordText text.now → ⊥) (λ p. WordText (P.said p) × (P.said p ≡ text.now) × P.is_sound line p) }
{
    if text.is_empty() {
        return None;
    }
    match cut(text, b' ') {
        None => Some(P::of(text, line)),
        Some(_) => None,
    }
}

// The pieces of a line that has so many. A line of no pieces is empty.
pub fn pieces_of<'a, P: FromText<'a>, const N: usize>(text: &'a [u8], line: usize) -> Option<[P; N]>
    ensures { Parted P.said P.is_sound N text.now line result }
{
    let mut pieces = [P::of(&[], line); N];
    let Some((last, before)) = pieces.split_last_mut() else {
        return if text.is_empty() { Some(pieces) } else { None };
    };
    let mut rest = text;
    for piece in before {
        // What is cut off at a space has none.
        let (word, after) = cut(rest, b' ')?;
        if word.is_empty() {
            return None;
        }
        *piece = P::of(word, line);
        rest = after;
    }
    *last = one(rest, line)?;
    Some(pieces)
}
