//! The lookahead words of a table's states, as sets that can be compared, joined to FIRST and met.
//!
//! A word is stored without its end mark. Words stay distinct: a string of fewer tokens than words are cut to had an end
//! mark, and one of as many had none. So FIRST of a symbol before some words is a product of two sets.
#![tactic(auto)]

mod choices;
mod entries;
mod first;
mod theorems;

pub use choices::chosen;
pub use entries::words_of;
pub use first::first_of;
pub use theorems::lookahead_stands;
