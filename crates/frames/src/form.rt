//! The frames of a table together with its numbers.
ghost use Rattle.std.specs.Prelude.{◌≡◌};
ghost use Rattle.frames.specs.Raw.{header_of};
ghost use Rattle.frames.specs.Views.{raw};

pub mod judging;

use crate::frames::Frames;
use crate::header::Header;

// The frames of a table with the numbers in the first of them.
#[derive(Clone, Copy)]
struct Form<'a> {
    frames: Frames<'a>,
    header: Header,
    ghost first: { header ≡ header_of (raw frames) },
}
