//! What a set of places has.
ghost use Rattle.std.specs.Prelude.{◌≡◌, ◌/◌, ◌%◌, ◌<◌, false, ◌&&◌, ◌||◌, Decides};
ghost use Rattle.grammar.specs.Item.{Item};
ghost use Rattle.items.specs.Entries.{item_of, mentions};
ghost use Rattle.items.specs.Sets.{has, alike, in_grid, same_item};

use super::Places;
use crate::place::Place;

impl Places {
    /// The set of no place.
    pub fn none() -> Places
        ensures nothing { (i : Item) → has result i ≡ false }
        ensures alone { (s : Places) → Decides (alike s result) ((i : Item) → has s i ≡ false) }
    {
        Places {
            marks: [false; 427],
        }
    }

    /// The set of the places that are marked, each at its number.
    pub fn of_marks(marks: [bool; 427]) -> Places
        ensures { result.marks ≡ marks }
    {
        Places { marks }
    }

    /// Whether a place is in the set.
    pub fn contains(&self, place: Place) -> bool
        ensures { result ≡ has self.now (item_of place) }
    {
        place.number().is_some_and(|j| self.marks[j])
    }

    // Whether the place with a number is in the set.
    pub(crate) fn has_number(&self, j: usize) -> bool
        requires { j < 427 }
        ensures { result ≡ has self.now (record { rule = j / 7; dot = j % 7 }) }
    {
        self.marks[j]
    }

    /// Puts a place into the set; beyond the set's bounds there is none.
    pub fn insert(&mut self, place: Place)
        ensures { (i : Item) → has self.new i ≡ (has self.old i || (in_grid i && same_item i (item_of place))) }
    {
        if let Some(j) = place.number() {
            self.marks[j] = true;
        }
    }

    /// The set of the places in a list of pairs of a rule and a dot.
    pub fn of_pairs(pairs: &[u8]) -> Places
        ensures { (i : Item) → has result i ≡ (in_grid i && mentions pairs.now i) }
    {
        let mut places = Places::none();
        for pair in pairs.chunks_exact(2) {
            places.insert(Place {
                rule: pair[0],
                dot: pair[1],
            });
        }
        places
    }

    /// Whether the set has no place.
    pub fn is_empty(&self) -> bool
        ensures { Decides result ((i : Item) → has self.now i ≡ false) }
    {
        *self == Places::none()
    }
}
