//! Lexemes.
ghost use Rattle.std.specs.Prelude.{◌≡◌, ◌==◌};
ghost use Rattle.sheet.specs.Lexemes.{kind_of, text_of};
ghost use Rattle.sheet.specs.Scanners.{spot_of, token_of};

use byte_classes::{Keyword, Mark};
use source::{Place, Token};

/// A token with the part of the sheet that it stands for. A name's quotes and a comment's hash are part of it.
#[derive(Clone, Copy)]
pub enum Lexeme<'a> {
    Number(&'a [u8]),
    Word(&'a [u8]),
    Name(&'a [u8]),
    Mark(Mark, &'a [u8]),
    Keyword(Keyword, &'a [u8]),
    LineEnd(&'a [u8]),
    Comment(&'a [u8]),
}

impl<'a> Lexeme<'a> {
    /// Its bytes, a part of the sheet.
    #[inline(always)]
    pub fn text(self) -> &'a [u8]
        ensures { result.now ≡ text_of self.entry }
    {
        match self {
            Lexeme::Number(text)
            | Lexeme::Word(text)
            | Lexeme::Name(text)
            | Lexeme::Mark(_, text)
            | Lexeme::Keyword(_, text)
            | Lexeme::LineEnd(text)
            | Lexeme::Comment(text) => text,
        }
    }

    /// The number of its kind, from 1 to 16.
    #[inline(always)]
    pub fn kind(self) -> u8
        ensures { result ≡ kind_of self.entry }
    {
        match self {
            Lexeme::Number(_) => 1,
            Lexeme::Word(_) => 2,
            Lexeme::Name(_) => 3,
            Lexeme::Mark(Mark::Colon, _) => 4,
            Lexeme::Mark(Mark::Equals, _) => 5,
            Lexeme::Mark(Mark::Comma, _) => 6,
            Lexeme::Mark(Mark::Semicolon, _) => 7,
            Lexeme::Mark(Mark::Minus, _) => 8,
            Lexeme::Keyword(Keyword::Zone, _) => 9,
            Lexeme::Keyword(Keyword::Curve, _) => 10,
            Lexeme::Keyword(Keyword::Set, _) => 11,
            Lexeme::Keyword(Keyword::From, _) => 12,
            Lexeme::Keyword(Keyword::To, _) => 13,
            Lexeme::Keyword(Keyword::Off, _) => 14,
            Lexeme::LineEnd(_) => 15,
            Lexeme::Comment(_) => 16,
        }
    }

    /// Whether it ends its line.
    #[inline(always)]
    pub fn is_line_end(self) -> bool
        ensures { result ≡ (kind_of self.entry == 15) }
    {
        matches!(self, Lexeme::LineEnd(_))
    }
}

/// A lexeme, and the place of its first byte.
#[derive(Clone, Copy)]
pub struct PlacedLexeme<'a> {
    pub lexeme: Lexeme<'a>,
    pub place: Place,
}

impl<'a> From<PlacedLexeme<'a>> for Token {
    ghost from_gives = { λ x t. t ≡ token_of (spot_of x) };

    #[inline(always)]
    fn from(placed: PlacedLexeme<'a>) -> Token {
        Token {
            kind: placed.lexeme.kind(),
            place: placed.place,
        }
    }
}
