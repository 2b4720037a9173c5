//! The making of a checked table, and the look-ups in it.
ghost use Rattle.std.specs.Prelude.{◌≡◌, ℕ, ◌+◌, ◌<◌, ◌≤◌, Ok, IfSome, IfNone, Decides, length, drop, slice_index};
ghost use Rattle.grammar.specs.Grammar.{Rule, IsRule};
ghost use Rattle.frames.specs.Form.{word_of};
ghost use Rattle.frames.specs.Raw.{Raw, end_of, frame, header_of, place, right_of, section_of};
ghost use Rattle.table.specs.Checked.{contents};
ghost use Rattle.table.specs.Contents.{grammar_of, table_of};
ghost use Rattle.table.specs.LookUps.{AfterDots, BeginsWord};
ghost use Rattle.table.specs.Rows.{Verdict};
ghost use Rattle.table.specs.Theorems.{HoldsCanonical};
ghost use Rattle.table.specs.States.{answered};

use super::CheckedTable;
use crate::lookup::{begins_word, choice_of, successor_of, symbol_of};
use crate::search::{rising_choice, rising_successor, rising_word};
use frames::{Frames, Header, Section};
use symbols::{START_RIGHT, Word};

/// Makes a checked table of one that the check has answered with Ok. It cannot refuse.
pub fn checked<'a>(
    store: &'a [u8],
    starts: &'a [usize],
    frames: usize,
    bytes: usize,
) -> CheckedTable<'a>
    requires { Verdict (record { store = store.now; starts = starts.now; frames = frames; bytes = bytes }) (Ok tt) }
    ensures { contents result ≡ record { store = store.entry.now; starts = starts.now; frames = frames; bytes = bytes } }
{
    let frames = Frames::new(store, starts, frames, bytes);
    CheckedTable {
        frames,
        header: frames.header(),
    }
}

// The place of a section among those of a state.
#[inline]
fn place(section: Section) -> usize
    ensures { result ≡ place section }
{
    section as usize
}

// What an accepted table has need not be tested: its frames are there, and their entries rise. Of a number that is none of a state
// nothing is known, so there a look-up reads the frames as they are.
impl<'a> CheckedTable<'a> {
    /// It holds a sound grammar and its canonical LL(k) table. The function does nothing else than say so.
    #[tactic(auto, using(crate::proofs::Files::holds_canonical))]
    pub fn stands(self)
        ensures { ∥ HoldsCanonical (contents self.entry) ∥₁ }
    {}

    // Where a frame ends.
    #[inline]
    fn end(self, i: usize) -> usize
        requires { i < (contents self).frames }
        ensures { result ≡ end_of (contents self.entry) i }
    {
        let next = i + 1;
        if next < self.frames.frames {
            self.frames.starts[next]
        } else {
            self.frames.bytes
        }
    }

    // The bytes of a frame behind so many.
    #[inline]
    fn behind(self, i: usize, many: usize) -> &'a [u8]
        requires there { i < (contents self).frames }
        requires long { many ≤ length (frame (contents self) i) }
        ensures { result.now ≡ drop many (frame (contents self.entry) i) }
    {
        &self.frames.store[self.frames.starts[i] + many..self.end(i)]
    }

    // The entries of a section of a state.
    #[inline]
    fn entries(self, state: u8, section: Section) -> &'a [u8]
        requires { state < (header_of (contents self)).s }
        ensures { result.now ≡ section_of (contents self.entry) state section }
    {
        let i = 1 + self.header.p as usize + 4 * state as usize + place(section);
        self.behind(i, 1)
    }

    // The right side of a rule of the table.
    #[inline]
    fn right(self, rule: u8) -> &'a [u8]
        requires { rule < (header_of (contents self)).p }
        ensures { result.now ≡ drop 2 (frame (contents self.entry) (1 + rule)) }
    {
        self.behind(1 + rule as usize, 2)
    }

    // The symbol behind a dot in the right side of a rule, the start rule too.
    #[inline]
    fn symbol_at(self, rule: u8, dot: u8) -> u8
        requires known { rule ≤ (header_of (contents self)).p }
        requires inside { dot < length (right_of (contents self) rule) }
        ensures { result ≡ slice_index (right_of (contents self.entry) rule) dot }
    {
        if rule == self.header.p {
            START_RIGHT[dot as usize]
        } else {
            self.right(rule)[dot as usize]
        }
    }

    /// The numbers of the table.
    #[inline]
    pub fn header(self) -> Header
        ensures { result ≡ header_of (contents self.entry) }
    {
        self.header
    }

    /// The successor of a state by a symbol, if there is one.
    #[inline]
    pub fn successor(self, state: u8, symbol: u8) -> Option<u8>
        ensures { result ≡ answered ((table_of (contents self.entry)).next state symbol) }
    {
        if state < self.header.s {
            let entries = self.entries(state, Section::Successors);
            rising_successor(entries, symbol)
        } else {
            successor_of(self.frames, state, symbol)
        }
    }

    /// The rule chosen at a state for a nonterminal and a word, if there is one.
    #[inline]
    pub fn choice(self, state: u8, nonterminal: u8, word: Word) -> Option<u8>
        ensures { result ≡ answered ((table_of (contents self.entry)).choice state nonterminal (word_of word.first word.second)) }
    {
        if state < self.header.s {
            let entries = self.entries(state, Section::Choices);
            rising_choice(entries, nonterminal, word)
        } else {
            choice_of(self.frames, state, nonterminal, word)
        }
    }

    /// The symbol just after the dots of a state, if there is one.
    #[inline]
    pub fn symbol(self, state: u8) -> Option<u8>
        ensures some { IfSome result (AfterDots (grammar_of (contents self.entry)) (table_of (contents self.entry)) state) }
        ensures none { IfNone result ((X : ℕ) → AfterDots (grammar_of (contents self.entry)) (table_of (contents self.entry)) state X → ⊥) }
    {
        if state < self.header.s {
            let kernel = self.entries(state, Section::Kernel);
            Some(self.symbol_at(kernel[0], kernel[1]))
        } else {
            symbol_of(self.frames, state)
        }
    }

    /// Whether some word of a state begins with the one or two symbols of `front`.
    #[inline]
    pub fn begins_word(self, state: u8, front: Word) -> bool
        ensures { Decides result (BeginsWord (table_of (contents self.entry)) state (word_of front.first front.second)) }
    {
        if state < self.header.s {
            let entries = self.entries(state, Section::Words);
            rising_word(entries, front)
        } else {
            begins_word(self.frames, state, front)
        }
    }

    /// The right side of a rule. Behind the last rule there is nothing of use.
    #[inline]
    pub fn right_side(self, rule: u8) -> &'a [u8]
        ensures { (ρ : Rule) → IsRule (grammar_of (contents self.entry)) rule ρ → result.now ≡ ρ.right }
    {
        if rule < self.header.p {
            self.right(rule)
        } else {
            &[]
        }
    }
}
