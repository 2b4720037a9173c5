//! The look-ups of a reading. What a move meets is remembered.
ghost use Rattle.std.specs.Prelude.{◌≡◌, ◌<◌, ◌≤◌, ◌∷◌, ℕ, List, Decides, MatchOption};
ghost use Rattle.frames.specs.Form.{word_of};
ghost use Rattle.grammar.specs.Grammar.{IsToken};
ghost use Rattle.table.specs.Checked.{contents};
ghost use Rattle.table.specs.LookUps.{AfterDots, BeginsWord};
ghost use Rattle.reading.specs.Given.{symbols_of};
ghost use Rattle.reading.specs.Model.{model, grammar_in, table_in};
ghost use Rattle.reading.specs.Parts.{states, entries};
ghost use Rattle.reading.specs.Remembered.{Leads, Meets};
ghost use Rattle.reading.specs.Window.{Full};

use super::Reading;
use crate::memory::{Course, Met};
use symbols::Word;

impl<F> Reading<'_, F> {
    // Whether some word of a state begins with these symbols. What was met with it on top, and with them in the window, tells at once.
    #[inline(always)]
    pub(super) fn begins_word(&self, state: u8, word: Word) -> bool
        requires some { 1 ≤ word.first }
        requires symbol { word.second ≡ 0 → word.first < 32 }
        ensures { Decides result (BeginsWord (table_in self.now) state (word_of word.first word.second)) }
    {
        if word.second == 0 {
            if self.memory.knows(state, word.first) {
                return true;
            }
        } else if self.memory.met(state, self.stack.second(), word).is_some() {
            return true;
        }
        self.find_word(state, word)
    }

    // Whether the table has such a word.
    #[cold]
    #[inline(never)]
    fn find_word(&self, state: u8, word: Word) -> bool
        ensures { Decides result (BeginsWord (table_in self.now) state (word_of word.first word.second)) }
    {
        self.table.begins_word(state, word)
    }

    // Finds in the table what is met.
    #[cold]
    #[inline(never)]
    fn find_met(&self, top: u8, below: u8, word: Word) -> Met
        requires full { Full (grammar_in self.now) (symbols_of (entries self.now.window)) }
        requires stack { (s : List ℕ) × (states self.now.stack ≡ top ∷ below ∷ s) }
        requires word { word_of word.first word.second ≡ symbols_of (entries self.now.window) }
        ensures { Meets (contents self.now.table) top below (word_of word.first word.second) result }
    {
        let Some(symbol) = self.table.symbol(top) else {
            unreachable!()
        };
        let course = if self.is_token(symbol) {
            None
        } else {
            Some(Course::find(self.table, below, symbol, word))
        };
        Met { symbol, course }
    }

    // What is met with the full window, and with these states on top.
    #[inline(always)]
    pub(super) fn met(&mut self, top: u8, below: u8) -> Met
        requires full { Full (grammar_in self.old) (symbols_of (entries self.old.window)) }
        requires stack { (s : List ℕ) × (states self.old.stack ≡ top ∷ below ∷ s) }
        ensures table { self.new.table ≡ self.old.table }
        ensures state { model self.new ≡ model self.old }
        ensures dots { AfterDots (grammar_in self.old) (table_in self.old) top result.symbol }
        ensures goes_on { MatchOption result.course
            (IsToken (grammar_in self.old) result.symbol)
            (λ c. (IsToken (grammar_in self.old) result.symbol → ⊥)
            × ∥ Leads (contents self.old.table) below result.symbol (symbols_of (entries self.old.window)) c ∥₁) }
    {
        let word = self.window.word();
        if let Some(met) = self.memory.met(top, below, word) {
            return *met;
        }
        let met = self.find_met(top, below, word);
        self.memory.note(top, below, word, met);
        met
    }
}
