//! The moves of a reading.
ghost use Rattle.std.specs.Prelude.{◌≡◌, ◌<◌, ◌∷◌, ℕ, List};
ghost use Rattle.source.specs.Meaning.{Meaning};
ghost use Rattle.source.specs.declared.token.Entry.{Entry};
ghost use Rattle.source.specs.declared.token.Entry.TheVariants.{Given};
ghost use Rattle.source.specs.declared.token.Token.{Token};
ghost use Rattle.grammar.specs.Grammar.{IsToken};
ghost use Rattle.table.specs.Checked.{contents};
ghost use Rattle.reading.specs.declared.reading.Reading.{Reading};
ghost use Rattle.reading.specs.Calls.{Stepped};
ghost use Rattle.reading.specs.Filling.{Faces, Filling};
ghost use Rattle.reading.specs.Given.{symbols_of};
ghost use Rattle.reading.specs.Model.{model, grammar_in};
ghost use Rattle.reading.specs.Parts.{states, entries};
ghost use Rattle.reading.specs.Remembered.{Leads};
ghost use Rattle.reading.specs.State.{finished, taken};
ghost use Rattle.reading.specs.Window.{Full};

use super::Reading;
use crate::answer::{Ending, Move, ReadRefusal, Standing};
use crate::memory::Course;
use source::Token;

impl<F> Reading<'_, F> {
    // The reading finishes.
    #[inline(always)]
    fn finish(&mut self)
        requires { self.old.moves < 1000000 }
        ensures table { self.new.table ≡ self.old.table }
        ensures state { model self.new ≡ finished (model self.old) }
    {
        self.moves += 1;
        self.standing = Standing::Over(Ending::Finished);
    }

    // A token is taken: it stands after the dots of the top, and first in the window.
    #[inline(always)]
    fn take(&mut self) -> Token
        requires moves { self.old.moves < 1000000 }
        requires faces { (q p a : ℕ) × (Faces self.old q p a × IsToken (grammar_in self.old) a) }
        ensures table { self.new.table ≡ self.old.table }
        ensures state { model self.new ≡ taken (model self.old) }
        ensures first { (behind : List (Entry Token)) × (entries self.old.window ≡ Given result ∷ behind) }
    {
        let token = self.window.take_first();
        self.stack.pop();
        self.moves += 1;
        token
    }

    // The rule of a course is announced, the one chosen for the symbol after the dots of the top, unless the stack would become too long.
    #[inline(always)]
    fn announce(&mut self, course: Course) -> Result<Move, ReadRefusal<F>>
        requires moves { self.old.moves < 1000000 }
        requires chosen { (q p A : ℕ) × (Faces self.old q p A × (IsToken (grammar_in self.old) A → ⊥)
            × ∥ Leads (contents self.old.table) p A (symbols_of (entries self.old.window)) course ∥₁) }
        ensures { (r : Reading F) (q : ℕ) (m m' : Meaning F) → Filling r m q self.old m' → Stepped r m result self.new m' }
    {
        // the states for the right side come in place of the top
        if !self.stack.has_room(course.steps) {
            self.end(Ending::StackFull);
            return Err(ReadRefusal::StackFull);
        }
        self.stack.replace_top(&course.states, course.steps);
        self.rules += 1;
        self.moves += 1;
        Ok(Move::Announce(course.rule))
    }

    // Makes the move for the symbol after the dots of the top, with this state below it.
    #[inline(always)]
    fn meet(&mut self, top: u8, below: u8) -> Result<Move, ReadRefusal<F>>
        requires moves { self.old.moves < 1000000 }
        requires full { Full (grammar_in self.old) (symbols_of (entries self.old.window)) }
        requires stack { (s : List ℕ) × (states self.old.stack ≡ top ∷ below ∷ s) }
        ensures { (r : Reading F) (q : ℕ) (m m' : Meaning F) → Filling r m q self.old m' → Stepped r m result self.new m' }
    {
        match self.met(top, below).course {
            None => Ok(Move::Take(self.take())),
            Some(course) => self.announce(course),
        }
    }

    // Makes the move that the stack and the full window call for.
    #[inline(always)]
    pub(super) fn act(&mut self) -> Result<Move, ReadRefusal<F>>
        requires moves { self.old.moves < 1000000 }
        requires full { Full (grammar_in self.old) (symbols_of (entries self.old.window)) }
        ensures { (r : Reading F) (q : ℕ) (m m' : Meaning F) → Filling r m q self.old m' → Stepped r m result self.new m' }
    {
        match self.stack.states() {
            [] => unreachable!(),
            [_] => {
                self.finish();
                Ok(Move::Finish)
            }
            &[top, below, ..] => self.meet(top, below),
        }
    }
}
