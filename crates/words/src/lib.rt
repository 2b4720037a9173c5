//! Sets of lookahead words, as values of the solver.
//!
//! A word has at most K tokens, each from 1 to 20, with K one or two. Union is the join, and concatenation, cut to K
//! tokens, the product; so the least solution of a grammar's equations is FIRST of each nonterminal.
#![tactic(auto)]

mod first;
mod set;

pub use first::first_sets;
pub use set::Words;
pub use set::members::words_stand;
