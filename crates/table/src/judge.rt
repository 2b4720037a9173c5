//! A table that is judged.
ghost use Rattle.std.specs.Prelude.{◌≡◌};
ghost use Rattle.frames.specs.Raw.{header_of};
ghost use Rattle.frames.specs.Views.{raw};
ghost use Rattle.words.specs.Codes.{cut};

use crate::draft::Draft;

mod states;

/// A table whose words are cut to K.
#[derive(Clone, Copy)]
pub struct Judge<'a, const K: usize> {
    pub draft: &'a Draft<'a>,
    ghost cut_is: { (header_of (raw draft.now.frames)).k ≡ cut K },
}
