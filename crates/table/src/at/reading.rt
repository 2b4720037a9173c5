//! States read from the frames.
ghost use Rattle.table.specs.States.{file, IsState};

use super::At;
use crate::state::State;
use frames::Section;
use items::Places;
use lookahead::words_of;

impl<const K: usize> At<'_, K> {
    /// Reads the state.
    pub fn read(&self) -> State<K>
        ensures { IsState (file self.now.draft.now) self.now.q result }
    {
        let frames = self.draft.frames;
        State {
            places: Places::of_pairs(frames.section(self.q, Section::Kernel)),
            words: words_of(frames.section(self.q, Section::Words)),
        }
    }
}
