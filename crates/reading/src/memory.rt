//! What a reading has looked up in its table.

use crate::stack::BLOCK;

pub mod cells;
pub mod finding;

/// A memory has so many cells of sixteen bytes.
pub const CELLS: usize = 1024;

/// Tokens and the end mark are lower.
pub const SYMBOLS: usize = 32;

/// States are numbered by bytes.
pub const STATES: usize = 256;

/// A rule, how many steps its right side has, and at the end of a block the states that it leads through, one for each step, the highest first.
#[derive(Clone, Copy)]
pub struct Course {
    pub rule: u8,
    pub steps: u8,
    pub states: [u8; BLOCK],
}

/// What a move meets: the symbol after the dots of the top, which only contracts ask for, and, unless it is a token, the course of the rule that is
/// chosen for it.
#[derive(Clone, Copy)]
pub struct Met {
    pub symbol: u8,
    pub course: Option<Course>,
}

/// What was met with a state on top, another below it and a word in the window. The key is a number for the three, or 0 in a cell that is not used.
#[derive(Clone, Copy)]
pub struct Known {
    key: u32,
    met: Met,
}

/// What has been met, in cells that are found by their keys: what comes later into a cell takes the place of what was there. `fronts` has what this
/// tells of words of one symbol, and forgets nothing.
#[derive(Drop)]
pub struct Memory {
    cells: [Known; CELLS],
    /// By state and symbol: whether it is known that some word of the state begins with the symbol.
    fronts: [bool; STATES * SYMBOLS],
}
