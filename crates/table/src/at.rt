//! A state at which a table is judged.
ghost use Rattle.std.specs.Prelude.{◌≡◌, ◌<◌};
ghost use Rattle.frames.specs.Raw.{header_of};
ghost use Rattle.frames.specs.Views.{raw};
ghost use Rattle.words.specs.Codes.{cut};

use crate::draft::Draft;

mod defined;
mod reading;
mod rows;

/// A state of a table whose words are cut to K.
#[derive(Clone, Copy)]
pub struct At<'a, const K: usize> {
    pub draft: &'a Draft<'a>,
    pub q: u8,
    ghost cut_is: { (header_of (raw draft.now.frames)).k ≡ cut K },
    ghost within: { q < (header_of (raw draft.now.frames)).s },
}
