//! The closure of a set of places.
ghost use Rattle.std.specs.Prelude.{◌≡◌, ℕ, ◌/◌, ◌%◌, ◌<◌, None, slice_index_or};
ghost use Rattle.items.specs.Actives.{Active};
ghost use Rattle.items.specs.Nexts.{moved_by};

use crate::places::Places;
use solver::{Rule, Yes};

pub mod successors;

/// The closure of a set of places: the set, and the rules of the nonterminals that stand before a dot of the closure.
#[derive(Clone, Copy)]
pub struct Closure<'a> {
    rules: &'a [Rule<'a>],
    places: &'a Places,
    // The mark of each nonterminal that stands before a dot.
    marks: [Yes; 24],
    // The symbol by which each place, at its number, is one of a successor. Found once, for the successors by all symbols.
    moves: [Option<u8>; 427],
    ghost active: { ∥ Active rules.now places.now marks ∥₁ },
    ghost moves_are: { (j : ℕ) → j < 427 → slice_index_or moves j None ≡ moved_by rules.now places.now marks (j / 7) (j % 7) },
}
