//! Kernel places, closures and successors, over rules as the solver takes them.
#![tactic(auto)]

mod closing;
mod closure;
mod place;
mod places;
mod reach;
mod right_sides;

pub use closing::active;
pub use closure::Closure;
pub use place::Place;
pub use places::Places;
pub use reach::reachable;
