//! A move as a line.
ghost use Rattle.std.specs.Prelude.{◌≡◌, Some};
ghost use Rattle.transcript.specs.Lines.{move_line, last};

use reading::Move;
use source::Token;
use std::fmt;

/// The line of a move, closed. A finish has none, since the closing line tells of it.
#[derive(Clone, Copy)]
pub struct MoveLine {
    pub made: Move,
}

impl MoveLine {
    /// Whether no move follows.
    pub(crate) fn is_last(self) -> bool
        ensures { result ≡ last self.made }
    {
        matches!(self.made, Move::Finish)
    }
}

impl fmt::Display for MoveLine {
    ghost output = { λ line. Some (move_line line.made) };

    fn fmt<W: fmt::Write>(&self, f: &mut fmt::Formatter<W>) -> fmt::Result {
        match self.made {
            Move::Announce(rule) => writeln!(f, "rule {rule}"),
            Move::Take(Token { kind, place }) => writeln!(f, "token {place} {kind}"),
            Move::Finish => Ok(()),
        }
    }
}
