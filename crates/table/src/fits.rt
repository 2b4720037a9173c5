//! The words that rules fit at a state, and whether the choices are by them.
ghost use Rattle.std.specs.Prelude.{◌≡◌, length};
ghost use Rattle.frames.specs.Views.{raw};
ghost use Rattle.table.specs.Fitted.{FitWords};

use crate::at::At;
use words::Words;

mod comparing;
mod finding;

/// A state with the words that each rule fits there.
#[derive(Drop)]
pub struct Fits<'a, const K: usize> {
    at: At<'a, K>,
    sets: [Words<K>; 60],
    ghost many: { length sets ≡ 60 },
    ghost each: { FitWords (raw at.draft.now.frames) at.q sets },
}
