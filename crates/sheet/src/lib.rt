//! The scanner: cuts a sheet into lexemes that borrow it, each with its line and column, and is a token source.
#![tactic(auto)]

mod cut;
mod fault;
mod lexeme;
mod position;
mod run;
mod scanner;

pub use fault::ScanFault;
pub use lexeme::{Lexeme, PlacedLexeme};
pub use scanner::Scanner;
