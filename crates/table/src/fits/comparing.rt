//! Whether two rules fit one word, and whether the choices are by the words that rules fit.
ghost use Rattle.std.specs.Prelude.{◌≡◌, ◌<◌, ◌≤◌, Decides, ◌==◌};
ghost use Rattle.grammar.specs.Table.{TwoFit};
ghost use Rattle.frames.specs.Raw.{left_of};
ghost use Rattle.frames.specs.Views.{raw};
ghost use Rattle.table.specs.Contents.{grammar_of, table_of};
ghost use Rattle.table.specs.Fitted.{set_of, Share, MeetsLower, own_rules, ChosenAs};
ghost use Rattle.table.specs.Rows.{ChoicesGood};
ghost use Rattle.table.specs.States.{file};

use super::Fits;
use frames::{Frames, Section};
use lookahead::chosen;
use words::Words;

// Whether two rules are of one nonterminal.
fn same_left(frames: Frames<'_>, one: u8, other: u8) -> bool
    ensures { result ≡ (left_of (raw frames.entry) one == left_of (raw frames.entry) other) }
{
    frames.left(one) == frames.left(other)
}

// Whether every entry of four bytes names a rule of its nonterminal.
fn name_own_rules(frames: Frames<'_>, entries: &[u8]) -> bool
    ensures { result ≡ own_rules (raw frames.entry) entries.now }
{
    for entry in entries.chunks_exact(4) {
        if entry[0] != frames.left(entry[3]) {
            return false;
        }
    }
    true
}

impl<const K: usize> Fits<'_, K> {
    // The words that a rule fits. The bound is asked for here and below: with `get` in its place, the proofs did not close.
    fn of(&self, r: u8) -> Words<K>
        requires { r < 60 }
        ensures { result ≡ set_of self.now.sets r }
    {
        self.sets[r as usize]
    }

    // Whether two rules of one nonterminal have a word in common.
    fn share(&self, one: u8, other: u8) -> bool
        requires one { one < 60 }
        requires other { other < 60 }
        ensures { Decides result (Share (file self.now.at.draft.now) self.now.sets one other) }
    {
        same_left(self.at.draft.frames, one, other) && self.of(one).meets(self.of(other))
    }

    // Whether a rule has a word in common with a lower one of its nonterminal.
    fn meets_lower(&self, r: u8) -> bool
        requires { r < 60 }
        ensures { Decides result (MeetsLower (file self.now.at.draft.now) self.now.sets r) }
    {
        for lower in 0..r {
            if self.share(lower, r) {
                return true;
            }
        }
        false
    }

    /// Whether no two rules fit one word.
    pub fn one_fits(&self) -> bool
        ensures { Decides result (TwoFit (grammar_of (file self.now.at.draft.now)) (table_of (file self.now.at.draft.now)) self.now.at.q → ⊥) }
    {
        for r in 0..self.at.draft.header.p {
            if self.meets_lower(r) {
                return false;
            }
        }
        true
    }

    // Whether the first p rules are chosen for just the words that they fit.
    fn chosen_as(&self, entries: &[u8], p: u8) -> bool
        requires { p ≤ 60 }
        ensures { Decides result (ChosenAs p entries.now self.now.sets) }
    {
        for r in 0..p {
            if chosen::<K>(entries, r) != self.of(r) {
                return false;
            }
        }
        true
    }

    /// Whether the choices are as defined, where no two rules fit one word.
    pub fn choices_good(&self) -> bool
        requires { TwoFit (grammar_of (file self.now.at.draft.now)) (table_of (file self.now.at.draft.now)) self.now.at.q → ⊥ }
        ensures { Decides result (ChoicesGood (file self.now.at.draft.now) self.now.at.q) }
    {
        let draft = self.at.draft;
        let entries = draft.frames.section(self.at.q, Section::Choices);
        name_own_rules(draft.frames, entries) && self.chosen_as(entries, draft.header.p)
    }
}
