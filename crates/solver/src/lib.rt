//! Least solutions of a grammar's equations.
//!
//! A nonterminal's value is the join, over its rules, of the product of the values on the right. One text solves these
//! equations for every kind of value: `Yes` tells which nonterminals derive a token string, and sets of words, another
//! crate's kind, are FIRST.
#![tactic(auto)]

mod rounds;
mod rule;
mod value;
mod yes;

pub use rounds::{solve, symbol_value};
pub use rule::Rule;
pub use value::Value;
pub use yes::{Yes, productive};
