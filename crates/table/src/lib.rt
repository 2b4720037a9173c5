//! The check of a table.
#![tactic(auto)]

mod at;
mod draft;
mod fits;
mod judge;
mod judging;
mod lookup;
mod lowest;
mod passed;
mod refused;
mod search;
mod sound;
mod state;
mod theorems;

pub use judging::check;
pub use passed::CheckedTable;
pub use passed::making::checked;
pub use refused::CheckRefusal;
pub use theorems::verdicts_stand;
