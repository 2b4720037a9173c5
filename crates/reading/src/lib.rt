//! Readings: a checked table drives them over the tokens of a source.
#![tactic(auto)]

mod answer;
mod memory;
mod reading;
mod sheet;
mod stack;
mod theorems;
mod window;

pub use answer::{Ending, Move, Ran, ReadRefusal, Sheet, Standing, View};
pub use reading::Reading;
pub use sheet::read_sheet;
pub use theorems::{readings_stand, steps_stand};
