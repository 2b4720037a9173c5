//! What is printed of a reading: a line for each move, and a closing line.
#![tactic(auto)]

mod closing;
mod made;
mod rules;
mod sheets;
mod telling;

pub use closing::Closing;
pub use made::MoveLine;
pub use rules::Rules;
pub use sheets::transcribe_sheet;
pub use telling::transcribe;
