//! Places, and their numbers in a set.
ghost use Rattle.std.specs.Prelude.{◌≡◌, ◌+◌, ◌*◌, ◌/◌, ◌%◌, ◌<◌, true, false, MatchOption};
ghost use Rattle.items.specs.Entries.{item_of};
ghost use Rattle.items.specs.Sets.{in_grid};

/// How many dots a rule may have.
const DOTS: u8 = 7;

/// How many rules there may be, the start rule too.
const RULES: u8 = 61;

/// How many places a set may have.
pub const PLACES: usize = 427;

/// A rule, by its number, with a dot that has `dot` symbols of the right side before it.
#[derive(Clone, Copy)]
pub struct Place {
    pub rule: u8,
    pub dot: u8,
}

impl Place {
    // Its number in a set; beyond the set's bounds there is none.
    pub(crate) fn number(self) -> Option<usize>
        ensures { MatchOption result (in_grid (item_of self) ≡ false) (λ j. (in_grid (item_of self) ≡ true) × (j ≡ 7 * self.rule + self.dot) × (j < 427)) }
    {
        (self.rule < RULES && self.dot < DOTS).then(|| DOTS as usize * self.rule as usize
            + self.dot as usize)
    }

    // The place with a number.
    pub(crate) fn numbered(j: usize) -> Place
        requires { j < 427 }
        ensures { result ≡ record { rule = j / 7; dot = j % 7 } }
    {
        let dots = DOTS as usize;
        Place {
            rule: (j / dots) as u8,
            dot: (j % dots) as u8,
        }
    }
}
