//! The admission of a table: its text is loaded and checked, and a line says what came of it.
#![tactic(auto)]

mod admitting;
mod outcome;

pub use admitting::admit;
pub use outcome::{Accepted, Line, Refused};

/// The bytes of a store that has room for every text.
pub const STORE_BYTES: usize = 1_048_576;

/// The most frames that a table has: one with its numbers, 60 rules and 200 states of four frames.
pub const MOST_FRAMES: usize = 861;

const _: () = prove!(STORE_BYTES == 1_048_576 && MOST_FRAMES == 1 + 60 + 4 * 200);
