//! Stepping a reading.
ghost use Rattle.reading.specs.Calls.{Stepped};

use super::Reading;
use crate::answer::{Ending, Move, ReadRefusal, Standing};
use source::Source;

/// A reading makes at most so many moves.
pub const MOST_MOVES: u32 = 1_000_000;

impl<F> Reading<'_, F> {
    /// Requests what entries are wanted, and makes a move. A refusal ends the reading, unless it is over already.
    #[inline(always)]
    pub fn step<S: Source<Fault = F>>(&mut self, source: &mut S) -> Result<Move, ReadRefusal<F>>
        ensures { Stepped self.old (S.Source.meaning source.old) result self.new (S.Source.meaning source.new) }
    {
        if let Standing::Over(ending) = self.standing {
            return Err(ReadRefusal::Over(ending));
        }
        if self.moves == MOST_MOVES {
            self.end(Ending::MovesSpent);
            return Err(ReadRefusal::MovesSpent);
        }
        let &[top, ..] = self.stack.states() else {
            unreachable!()
        };
        self.fill(source, top)?;
        self.act()
    }
}
