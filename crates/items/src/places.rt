//! Sets of places.
ghost use Rattle.std.specs.Prelude.{◌≡◌, length};

pub mod set;

/// A set of places: a rule up to 60 with a dot up to 6.
#[derive(Clone, Copy, PartialEq, Eq)]
pub struct Places {
    // Place `7 * rule + dot` is in the set.
    marks: [bool; 427],
    ghost long: { length marks ≡ 427 },
}
