//! The window of a reading.
ghost use Rattle.std.specs.Prelude.{◌≡◌};

use source::Place;
use symbols::Word;

pub mod entries;

/// The entries that are let in and not yet taken: with at most two symbols of lookahead, at most two. Each is kept as its symbol, 0 where there is
/// none, and its place.
#[derive(Clone, Copy)]
pub struct Window {
    symbols: Word,
    first_place: Place,
    second_place: Place,
    ghost no_gap: { symbols.first ≡ 0 → symbols.second ≡ 0 },
}
