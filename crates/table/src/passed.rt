//! A table that has passed the check.
ghost use Rattle.std.specs.Prelude.{◌≡◌};
ghost use Rattle.frames.specs.Raw.{header_of};
ghost use Rattle.frames.specs.Views.{raw};
ghost use Rattle.table.specs.Rows.{AcceptedFile};

use frames::{Frames, Header};

pub mod making;

/// A table with nothing wrong, with its numbers at hand. Only the making below makes one, of a table that the check has accepted.
#[derive(Clone, Copy)]
pub struct CheckedTable<'a> {
    frames: Frames<'a>,
    header: Header,
    ghost header_is: { header ≡ header_of (raw frames) },
    pub ghost good: { ∥ AcceptedFile (raw frames) ∥₁ },
}
