//! Look-ups in the lists of a state.
ghost use Rattle.std.specs.Prelude.{◌≡◌, ℕ, [], ◌∷◌, IfSome, IfNone, Decides};
ghost use Rattle.grammar.specs.Item.{raised, Before, IsKernel};
ghost use Rattle.frames.specs.Form.{word_of};
ghost use Rattle.frames.specs.Views.{raw};
ghost use Rattle.items.specs.Entries.{item_of};
ghost use Rattle.lookahead.specs.Entries.{choices_in};
ghost use Rattle.table.specs.Contents.{grammar_of, table_of, successor_in, choice_in};
ghost use Rattle.table.specs.LookUps.{AfterDots, BeginsWith, BeginsWord};
ghost use Rattle.items.specs.Nexts.{found};
ghost use Rattle.table.specs.States.{answered, after_in, once_in};

use frames::{Frames, Section};
use items::Place;
use symbols::Word;

// What stands behind a key in the first entry that begins with it, where an entry is a key and one byte: pairs of a symbol and
// a state, or a nonterminal with a word and a rule.
fn find_entry(entries: &[u8], key: &[u8]) -> Option<u8>
    ensures successor { (X : ℕ) → key.now ≡ X ∷ [] → result ≡ answered (successor_in X entries.now) }
    ensures choice { (A a b : ℕ) → key.now ≡ A ∷ a ∷ b ∷ [] → result ≡ answered (choice_in A (word_of a b) (choices_in entries.now)) }
{
    for entry in entries.chunks_exact(key.len() + 1) {
        if entry.starts_with(key) {
            return Some(entry[key.len()]);
        }
    }
    None
}

// The state that pairs of a symbol and a state name for a symbol.
fn find_successor(entries: &[u8], symbol: u8) -> Option<u8>
    ensures { result ≡ answered (successor_in symbol entries.now) }
{
    find_entry(entries, &[symbol])
}

// Whether this state is the one that is named for a symbol.
fn is_named(entries: &[u8], symbol: u8, state: u8) -> bool
    ensures { result ≡ found state (answered (successor_in symbol entries.now)) }
{
    find_successor(entries, symbol) == Some(state)
}

/// Whether every pair of a symbol and a state is what is found for its symbol.
pub fn named_once(entries: &[u8]) -> bool
    ensures { result ≡ once_in entries.now entries.now }
{
    for entry in entries.chunks_exact(2) {
        if !is_named(entries, entry[0], entry[1]) {
            return false;
        }
    }
    true
}

/// The successor of a state by a symbol, if the table names one.
// Frames and state stay two parameters: `after` goes from state to state, and a checked table has no state of its own.
pub fn successor_of(frames: Frames<'_>, q: u8, symbol: u8) -> Option<u8>
    ensures { result ≡ answered ((table_of (raw frames.entry)).next q symbol) }
{
    find_successor(frames.section(q, Section::Successors), symbol)
}

/// The rule chosen at a state for a nonterminal and a word, if the table names one.
pub fn choice_of(frames: Frames<'_>, q: u8, nonterminal: u8, word: Word) -> Option<u8>
    ensures { result ≡ answered ((table_of (raw frames.entry)).choice q nonterminal (word_of word.first word.second)) }
{
    let entries = frames.section(q, Section::Choices);
    find_entry(entries, &[nonterminal, word.first, word.second])
}

/// The state after the symbols of a string were gone through from a state, the last first.
pub fn after(frames: Frames<'_>, q: u8, symbols: &[u8]) -> Option<u8>
    ensures { result ≡ after_in (table_of (raw frames.entry)) q symbols.now }
{
    let mut state = q;
    for symbol in symbols.iter().rev() {
        state = successor_of(frames, state, *symbol)?;
    }
    Some(state)
}

// The symbol just after the dot of a place. The start rule is the last that has a right side.
fn symbol_after(frames: Frames<'_>, place: Place) -> Option<u8>
    ensures some { IfSome result (Before (grammar_of (raw frames.entry)) (raised (item_of place))) }
    ensures none { IfNone result (IsKernel (grammar_of (raw frames.entry)) (item_of place) → ⊥) }
{
    if place.rule > frames.header().p {
        return None;
    }
    frames.right(place.rule).get(place.dot as usize).copied()
}

/// The symbol just after the dots of a state: that of the first of its kernel places that has one.
pub fn symbol_of(frames: Frames<'_>, q: u8) -> Option<u8>
    ensures some { IfSome result (AfterDots (grammar_of (raw frames.entry)) (table_of (raw frames.entry)) q) }
    ensures none { IfNone result ((X : ℕ) → AfterDots (grammar_of (raw frames.entry)) (table_of (raw frames.entry)) q X → ⊥) }
{
    for entry in frames.section(q, Section::Kernel).chunks_exact(2) {
        let place = Place {
            rule: entry[0],
            dot: entry[1],
        };
        if let Some(symbol) = symbol_after(frames, place) {
            return Some(symbol);
        }
    }
    None
}

/// Whether a word begins with another.
pub fn begins_with(word: Word, front: Word) -> bool
    ensures { Decides result (BeginsWith (word_of word.first word.second) (word_of front.first front.second)) }
{
    word.first == front.first && (front.second == 0 || word.second == front.second)
}

/// Whether some word of a state begins with a word.
pub fn begins_word(frames: Frames<'_>, q: u8, front: Word) -> bool
    ensures { Decides result (BeginsWord (table_of (raw frames.entry)) q (word_of front.first front.second)) }
{
    for entry in frames.section(q, Section::Words).chunks_exact(2) {
        let word = Word {
            first: entry[0],
            second: entry[1],
        };
        if begins_with(word, front) {
            return true;
        }
    }
    false
}
