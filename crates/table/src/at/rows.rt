//! The rows of the states.
ghost use Rattle.std.specs.Prelude.{◌≡◌, ℕ, ◌<◌, Decides};
ghost use Rattle.grammar.specs.Table.{EqualStates, EqualToLower, NotFound};
ghost use Rattle.frames.specs.Raw.{header_of, section_of};
ghost use Rattle.table.specs.Contents.{table_of};
ghost use Rattle.table.specs.Rows.{SuccessorsOnce};
ghost use Rattle.table.specs.States.{file, LeadsTo};

use super::At;
use frames::Section;

// Whether some pair of a symbol and a state names this state.
fn leads_to(entries: &[u8], q: u8) -> bool
    ensures { Decides result (LeadsTo entries.now q) }
{
    for entry in entries.chunks_exact(2) {
        if entry[1] == q {
            return true;
        }
    }
    false
}

impl<const K: usize> At<'_, K> {
    // Whether another state has the same entries in a section.
    fn same_section(&self, m: u8, section: Section) -> bool
        ensures { Decides result (section_of (file self.now.draft.now) m section ≡ section_of (file self.now.draft.now) self.now.q section) }
    {
        let frames = self.draft.frames;
        frames.section(m, section) == frames.section(self.q, section)
    }

    // Whether the state is equal to another. Entries rise, so the same places and words are the same entries.
    fn is_equal(&self, m: u8) -> bool
        requires { m < (header_of (file self.now.draft.now)).s }
        ensures { Decides result (EqualStates (table_of (file self.now.draft.now)) m self.now.q) }
    {
        self.same_section(m, Section::Kernel) && self.same_section(m, Section::Words)
    }

    /// Whether the state is equal to no lower one.
    pub fn is_distinct(&self) -> bool
        ensures { Decides result (EqualToLower (table_of (file self.now.draft.now)) self.now.q → ⊥) }
    {
        for m in 0..self.q {
            if self.is_equal(m) {
                return false;
            }
        }
        true
    }

    /// Whether the state is 0 or a successor of a lower one.
    pub fn is_found(&self) -> bool
        requires { (m : ℕ) → m < (header_of (file self.now.draft.now)).s → SuccessorsOnce (file self.now.draft.now) m }
        ensures { Decides result (NotFound (table_of (file self.now.draft.now)) self.now.q → ⊥) }
    {
        for m in 0..self.q {
            if leads_to(self.draft.frames.section(m, Section::Successors), self.q) {
                return true;
            }
        }
        self.q == 0
    }
}
