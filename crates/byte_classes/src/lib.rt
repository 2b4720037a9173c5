//! The bytes of a sheet: their classes, and the six words that have a kind of their own.
#![tactic(auto)]

mod class;
mod keyword;
mod table;

pub use class::{Class, Mark, class_of_character};
pub use keyword::{Keyword, keyword_of};
pub use table::class_of;
