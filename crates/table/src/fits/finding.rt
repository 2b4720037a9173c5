//! The words that each rule fits at a state.
ghost use Rattle.std.specs.Prelude.{◌≡◌, ◌≤◌, length};
ghost use Rattle.frames.specs.Raw.{header_of, left_of};
ghost use Rattle.frames.specs.Views.{raw};
ghost use Rattle.table.specs.Contents.{table_of};
ghost use Rattle.table.specs.Fitted.{fitting_state, fitting_words, FitWords};
ghost use Rattle.table.specs.States.{answered};

use super::Fits;
use crate::at::At;
use crate::lookup::{after, successor_of};
use frames::{Frames, Section};
use lookahead::words_of;
use solver::Value;
use words::Words;

// The successor by a rule's left side.
fn behind_left(frames: Frames<'_>, q: u8, r: u8) -> Option<u8>
    ensures { result ≡ answered ((table_of (raw frames.entry)).next q (left_of (raw frames.entry) r)) }
{
    successor_of(frames, q, frames.left(r))
}

// The state whose words a rule fits: the one after its right side, if there is a successor by its left side.
#[tactic(auto, using(crate::proofs::Fitting::behind_none, crate::proofs::Fitting::behind_some))]
fn state_behind(frames: Frames<'_>, q: u8, r: u8) -> Option<u8>
    ensures { result ≡ fitting_state (raw frames.entry) q r }
{
    behind_left(frames, q, r)?;
    after(frames, q, frames.right(r))
}

// The words that a rule fits at a state.
fn fitting<const K: usize>(frames: Frames<'_>, q: u8, r: u8) -> Words<K>
    ensures { result ≡ fitting_words K (raw frames.entry) q r }
{
    match state_behind(frames, q, r) {
        None => Words::<K>::bottom(),
        Some(state) => words_of(frames.section(state, Section::Words)),
    }
}

// The words that each rule fits at a state.
fn fittings<const K: usize>(frames: Frames<'_>, q: u8, count: u8) -> [Words<K>; 60]
    requires few { count ≤ 60 }
    requires number { count ≡ (header_of (raw frames)).p }
    ensures many { length result ≡ 60 }
    ensures each { FitWords (raw frames.entry) q result }
{
    // the proof of `array::from_fn` did not close, since what it makes is of the type parameter K
    let mut fits = [Words::<K>::bottom(); 60];
    for r in 0..count {
        fits[r as usize] = fitting(frames, q, r);
    }
    fits
}

impl<'a, const K: usize> Fits<'a, K> {
    /// Finds the words that each rule fits at a state.
    pub fn new(at: At<'a, K>) -> Fits<'a, K>
        ensures { result.at ≡ at.entry }
    {
        let sets = fittings(at.draft.frames, at.q, at.draft.header.p);
        Fits { at, sets }
    }
}
