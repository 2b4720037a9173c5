//! What a memory knows.
ghost use Rattle.std.specs.Prelude.{◌≡◌, ◌≤◌, ◌<◌, [], ◌∷◌, true, IfSome};
ghost use Rattle.frames.specs.Form.{word_of};
ghost use Rattle.frames.specs.Raw.{Raw};
ghost use Rattle.table.specs.Contents.{table_of};
ghost use Rattle.table.specs.LookUps.{BeginsWord};
ghost use Rattle.reading.specs.Remembered.{Remembered, Meets, key_of};

use super::{CELLS, Known, Memory, Met, STATES, SYMBOLS};
use symbols::Word;

// A number for two states and a word. No others have the same.
#[inline(always)]
fn key_of(top: u8, below: u8, word: Word) -> u32
    ensures { result ≡ key_of top below word.first word.second }
{
    top as u32
        + below as u32 * 0x100
        + word.first as u32 * 0x1_0000
        + word.second as u32 * 0x100_0000
}

// The cell of a key: the ten highest bits of its product with an odd number without a pattern, so that all of the key tells.
#[inline(always)]
fn cell_of(key: u32) -> usize
    ensures { result < 1024 }
{
    (key.wrapping_mul(0x9E37_79B1) / 0x40_0000) as usize
}

impl Memory {
    /// Nothing has been met.
    pub fn new() -> Memory
        ensures { (R : Raw) → Remembered R result }
    {
        let met = Met {
            symbol: 0,
            course: None,
        };
        Memory {
            cells: [Known { key: 0, met }; CELLS],
            fronts: [false; STATES * SYMBOLS],
        }
    }

    /// Whether it is known that some word of a state begins with a symbol.
    #[inline(always)]
    pub fn knows(&self, state: u8, symbol: u8) -> bool
        requires { symbol < 32 }
        ensures { (R : Raw) → Remembered R self.now → result ≡ true → BeginsWord (table_of R) state (symbol ∷ []) }
    {
        self.fronts[state as usize * SYMBOLS + symbol as usize]
    }

    /// What is met with a state on top, another below it and a word in the window, if it is known.
    #[inline(always)]
    pub fn met(&self, top: u8, below: u8, word: Word) -> Option<&Met>
        requires { 1 ≤ word.first }
        ensures { IfSome result (λ m. (R : Raw) → Remembered R self.now → Meets R top below (word_of word.first word.second) m.now) }
    {
        let key = key_of(top, below, word);
        let known = &self.cells[cell_of(key)];
        if known.key == key {
            Some(&known.met)
        } else {
            None
        }
    }

    /// Remembers what is met.
    pub fn note(&mut self, top: u8, below: u8, word: Word, met: Met)
        ensures { (R : Raw) → Remembered R self.old → Meets R top below (word_of word.first word.second) met → Remembered R self.new }
    {
        let key = key_of(top, below, word);
        self.cells[cell_of(key)] = Known { key, met };
        // a symbol of a word is a token or the end mark, so it always is one of these
        if word.second == 0 && (word.first as usize) < SYMBOLS {
            self.fronts[top as usize * SYMBOLS + word.first as usize] = true;
        }
    }
}
