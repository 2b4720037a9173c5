//! Look-ups by binary search in entries that rise.
ghost use Rattle.std.specs.Prelude.{true, false, ◌≡◌, ℕ, List, ◌+◌, ◌-◌, ◌*◌, ◌<◌, ◌≤◌, length, Decides};
ghost use Rattle.frames.specs.Form.{word_of};
ghost use Rattle.lookahead.specs.Entries.{choices_in, WordIn};
ghost use Rattle.table.specs.Contents.{successor_in, choice_in};
ghost use Rattle.table.specs.LookUps.{BeginsWith};
ghost use Rattle.table.specs.Rising.{pair_at, four_at, PairsRise, FoursRise};
ghost use Rattle.table.specs.States.{answered};

use crate::lookup::begins_with;
use symbols::Word;

// Where a test of the numbers below `count` turns from true to false: it is true just before, and false there.
#[inline]
fn partition_point<F: Fn(usize) -> bool>(count: usize, is_before: F) -> usize
    requires tests { (k : ℕ) → k < count → F.pre is_before k }
    requires small { count + count ≤ usize.MAX }
    ensures within { result ≤ count }
    ensures before { 0 < result → F.post is_before (result - 1) true }
    ensures here { result < count → F.post is_before result false }
{
    let mut low = 0;
    let mut high = count;
    while low < high {
        let middle = (low + high) / 2;
        if is_before(middle) {
            low = middle + 1;
        } else {
            high = middle;
        }
    }
    low
}

// An entry of two bytes as a number, the first byte the higher.
#[inline]
fn pair(entries: &[u8], i: usize) -> u16
    requires { 2 * i + 1 < length entries.now }
    ensures { result ≡ pair_at entries.now i }
{
    entries[2 * i] as u16 * 0x100 + entries[2 * i + 1] as u16
}

// An entry of four bytes as a number, the first byte the highest.
#[inline]
fn four(entries: &[u8], i: usize) -> u32
    requires { 4 * i + 3 < length entries.now }
    ensures { result ≡ four_at entries.now i }
{
    entries[4 * i] as u32 * 0x100_0000
        + entries[4 * i + 1] as u32 * 0x1_0000
        + entries[4 * i + 2] as u32 * 0x100
        + entries[4 * i + 3] as u32
}

/// The state that rising pairs of a symbol and a state name for a symbol.
#[inline]
pub fn rising_successor(entries: &[u8], symbol: u8) -> Option<u8>
    requires { PairsRise entries.now }
    ensures { result ≡ answered (successor_in symbol entries.now) }
{
    let count = entries.len() / 2;
    let at = partition_point(count, |i| entries[2 * i] < symbol);
    if at < count && entries[2 * at] == symbol {
        Some(entries[2 * at + 1])
    } else {
        None
    }
}

/// The rule that rising choices name for a nonterminal and a word.
#[inline]
pub fn rising_choice(entries: &[u8], nonterminal: u8, word: Word) -> Option<u8>
    requires { FoursRise entries.now }
    ensures { result ≡ answered (choice_in nonterminal (word_of word.first word.second) (choices_in entries.now)) }
{
    let count = entries.len() / 4;
    let key = nonterminal as u32 * 0x100_0000
        + word.first as u32 * 0x1_0000
        + word.second as u32 * 0x100;
    let at = partition_point(count, |i| four(entries, i) < key);
    if at == count {
        return None;
    }
    let behind = four(entries, at) - key;
    if behind < 0x100 {
        Some(behind as u8)
    } else {
        None
    }
}

/// Whether some of rising words begins with a word.
#[inline]
pub fn rising_word(entries: &[u8], front: Word) -> bool
    requires { PairsRise entries.now }
    ensures { Decides result ((y : List ℕ) × (WordIn entries.now y × BeginsWith y (word_of front.first front.second))) }
{
    let count = entries.len() / 2;
    let number = front.first as u16 * 0x100 + front.second as u16;
    let at = partition_point(count, |i| pair(entries, i) < number);
    if at == count {
        return false;
    }
    let word = Word {
        first: entries[2 * at],
        second: entries[2 * at + 1],
    };
    begins_with(word, front)
}
