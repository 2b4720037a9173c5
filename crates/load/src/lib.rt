//! Loads the text of a table file into memory that is lent: the bytes of its frames into a store, and where each frame
//! begins into a list of starts.
//!
//! A frame is a line of 2 to 8,192 digits 0 to 9 and A to F, even in number, that a line end (0A) closes; two digits
//! mean a byte. A text is loaded whole or not at all: a refusal leaves both memories as they were. The empty text has no
//! frames, and is loaded.
#![tactic(auto)]

mod digit;
mod fault;
mod line;
mod loading;

pub use fault::LoadRefusal;
pub use loading::{Loaded, load, text_law};
