//! A table file in memory, as load leaves it: its frames, and whether they have the form that they should.
#![tactic(auto)]

mod form;
mod frames;
mod header;

pub use form::judging::form_stands;
pub use frames::Frames;
pub use header::{Header, Section};
