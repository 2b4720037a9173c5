//! The states of a stack.
ghost use Rattle.std.specs.Prelude.{◌≡◌, ◌<◌, [], ◌∷◌, length, drop, slice_index};
ghost use Rattle.reading.specs.Parts.{states};

use super::{BLOCK, MOST_STATES, Stack};

impl Stack {
    /// A stack of one state.
    pub fn new(bottom: u8) -> Stack
        ensures { states result ≡ bottom ∷ [] }
    {
        let mut cells = [0; MOST_STATES + BLOCK];
        cells[MOST_STATES + BLOCK - 1] = bottom;
        Stack {
            cells,
            top: MOST_STATES + BLOCK - 1,
        }
    }

    /// The states, the top first.
    pub fn states(&self) -> &[u8]
        ensures { result.now ≡ states self.now }
    {
        &self.cells[self.top..]
    }

    /// The state below the top, or 0 where there is none.
    #[inline(always)]
    pub fn second(&self) -> u8
        ensures { result ≡ slice_index (states self.now) 1 }
    {
        match self.states() {
            &[_, second, ..] => second,
            _ => 0,
        }
    }

    /// Puts a state on top.
    pub fn push(&mut self, state: u8)
        requires { length (states self.old) < 256 }
        ensures { states self.new ≡ state ∷ states self.old }
    {
        self.top -= 1;
        self.cells[self.top] = state;
    }

    /// Takes the top off.
    pub fn pop(&mut self)
        requires { 0 < length (states self.old) }
        ensures { states self.new ≡ drop 1 (states self.old) }
    {
        self.top += 1;
    }
}
