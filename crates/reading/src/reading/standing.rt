//! Where a reading stands.
ghost use Rattle.std.specs.Prelude.{◌≡◌};
ghost use Rattle.reading.specs.Model.{model, view_of};
ghost use Rattle.reading.specs.State.{ended};
ghost use Rattle.reading.specs.Promise.{Promise};

use super::Reading;
use crate::answer::{Ending, Standing, View};

impl<F> Reading<'_, F> {
    // It ends without a move.
    pub(super) fn end(&mut self, ending: Ending)
        ensures table { self.new.table ≡ self.old.table }
        ensures state { model self.new ≡ ended (model self.old) ending }
    {
        self.standing = Standing::Over(ending);
    }

    /// Where the reading stands, and what it has come to. Its contract has the promise of readings whole: whatever calls have led to this reading.
    #[tactic(auto, using(crate::proofs::Promises::promise))]
    pub fn look(&self) -> View
        ensures shows { result ≡ view_of (model self.now) }
        ensures promise { Promise self.now }
    {
        View {
            standing: self.standing,
            tokens: self.tokens,
            rules: self.rules,
            moves: self.moves,
        }
    }

    /// The same, and the reading is gone.
    #[tactic(auto, using(crate::proofs::Promises::promise))]
    pub fn close(self) -> View
        ensures shows { result ≡ view_of (model self.entry) }
        ensures promise { Promise self.entry }
    {
        let Reading {
            table: _,
            memory: _,
            stack: _,
            window: _,
            tokens,
            rules,
            moves,
            standing,
            fault: _,
        } = self;
        View {
            standing,
            tokens,
            rules,
            moves,
        }
    }
}
