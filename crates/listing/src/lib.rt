//! The listing of a sheet's tokens: what `list_tokens` prints, proved to the last byte.
#![tactic(auto)]

mod escape;
mod line;
mod listing;

pub use escape::Escaped;
pub use line::Line;
pub use listing::Listing;
