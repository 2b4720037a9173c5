//! The states of a right side as a block.
ghost use Rattle.std.specs.Prelude.{◌≡◌, ◌<◌, ◌≤◌, ◌+◌, ◌-◌, ◌++◌, [], ◌∷◌, ℕ, List, length, drop, Decides};
ghost use Rattle.reading.specs.Parts.{states};

use super::{BLOCK, MOST_STATES, Stack};
use std::simd::Simd;

impl Stack {
    /// A block that ends with the states above the lowest, if these are at most eight.
    pub fn above_lowest(&self) -> [u8; BLOCK]
        ensures { (upper : List ℕ) (lowest : ℕ) → length upper ≤ 8 → states self.now ≡ upper ++ lowest ∷ []
            → (unused : List ℕ) × (result ≡ unused ++ upper) }
    {
        // the last cell has the lowest state, and the block is the eight before it
        Simd::<u8, BLOCK>::from_slice(&self.cells[MOST_STATES - 1..]).to_array()
    }

    /// Whether there is room for so many states in place of the top.
    pub fn has_room(&self, count: u8) -> bool
        requires few { count ≤ 8 }
        requires top { 0 < length (states self.now) }
        ensures { Decides result (length (states self.now) - 1 + count ≤ 256) }
    {
        BLOCK - 1 <= self.top - count as usize
    }

    /// Puts the last states of a block, so many, in place of the top.
    pub fn replace_top(&mut self, block: &[u8; BLOCK], count: u8)
        requires few { count ≤ 8 }
        requires top { 0 < length (states self.old) }
        requires room { length (states self.old) - 1 + count ≤ 256 }
        ensures { (unused upper : List ℕ) → block.now ≡ unused ++ upper → length upper ≡ count → states self.new ≡ upper ++ drop 1 (states self.old) }
    {
        let top = self.top;
        let start = top + 1 - BLOCK;
        // one load and one store
        Simd::<u8, BLOCK>::from_slice(block).copy_to_slice(&mut self.cells[start..start + BLOCK]);
        self.top = top - count as usize + 1;
    }
}
