//! Lines and columns.
ghost use Rattle.std.specs.Prelude.{◌≡◌, ◌+◌, ◌^◌, ◌<◌};
ghost use Rattle.source.specs.declared.token.Place.TheVariants.{Two};
ghost use Rattle.sheet.specs.Lexemes.{kind_of};
ghost use Rattle.sheet.specs.Scan.{line_after, column_after};

use crate::lexeme::Lexeme;
use source::Place;

/// Where a byte stands: both count from 1.
#[derive(Clone, Copy)]
pub(crate) struct Position {
    pub(crate) line: u32,
    pub(crate) column: u32,
}

impl Position {
    /// Behind so many bytes of its line.
    #[inline(always)]
    pub(crate) fn along(self, len: u32) -> Position
        requires { self.column + len < 2 ^ 32 }
        ensures { result ≡ record { line = self.line; column = self.column + len } }
    {
        Position {
            line: self.line,
            column: self.column + len,
        }
    }

    /// Behind a lexeme of so many bytes that stands here.
    #[inline(always)]
    pub(crate) fn behind(self, lexeme: Lexeme, len: u32) -> Position
        requires { (self.line < 2 ^ 31) × (self.column + len < 2 ^ 31) }
        ensures line { result.line ≡ line_after (kind_of lexeme.entry) self.line }
        ensures column { result.column ≡ column_after (kind_of lexeme.entry) len self.column }
    {
        if lexeme.is_line_end() {
            Position {
                line: self.line + 1,
                column: 1,
            }
        } else {
            self.along(len)
        }
    }
}

impl From<Position> for Place {
    ghost from_gives = { λ at place. place ≡ Two at.line at.column };

    #[inline(always)]
    fn from(at: Position) -> Place {
        Place::Two(at.line, at.column)
    }
}
