//! The words of a set. A word is given by its two tokens, 0 where there is none.
ghost use Rattle.std.specs.Prelude.{◌≡◌, ℕ, ◌^◌, ◌<◌, not, List, Decides, ◌==◌, bit_and, bit_or};
ghost use Rattle.words.specs.Codes.{bit, word_of, is_word};
ghost use Rattle.words.specs.Sets.{member, with_word, Added, Meet};
ghost use Rattle.words.specs.Theorems.{CutAsWords, WordsAreSets};

use super::Words;
use symbols::Word;

// How many rows there are, and bits of a row.
const WIDTH: u8 = 21;

fn has_bit(row: u32, at: u8) -> bool
    requires { at < 32 }
    ensures { result ≡ bit row at }
{
    (row >> at) % 2 == 1
}

fn with_bit(row: u32, at: u8) -> u32
    requires { at < 32 }
    ensures { result ≡ bit_or row (2 ^ at) }
{
    row | (1 << at)
}

fn share_a_bit(row: u32, other: u32) -> bool
    ensures { result ≡ not (bit_and row other == 0) }
{
    row & other != 0
}

// Whether the word is one of at most k tokens, each from 1 to 20.
fn fits(k: usize, word: Word) -> bool
    ensures { result ≡ is_word k word.first word.second }
{
    if word.first == 0 || k < 2 {
        word.first < WIDTH && word.second == 0
    } else {
        word.first < WIDTH && word.second < WIDTH
    }
}

impl<const K: usize> Words<K> {
    /// Whether the word is in the set.
    pub fn contains(&self, word: Word) -> bool
        ensures { result ≡ member self.now (word_of word.first word.second) }
    {
        let row = self.rows.get(usize::from(word.first)).copied().unwrap_or(0);
        word.second < WIDTH && has_bit(row, word.second)
    }

    /// Adds the word. Where it is none of at most K tokens, nothing is added.
    pub fn insert(&mut self, word: Word)
        ensures adds { (w : List ℕ) → Decides (member self.new w) (Added self.old word.first word.second w) }
        ensures writes { self.new ≡ with_word self.old word.first word.second }
    {
        if !fits(K, word) {
            return;
        }
        // in place: a set that is copied and written back costs four times as much
        let first = usize::from(word.first);
        self.rows[first] = with_bit(self.rows[first], word.second);
    }

    /// Whether the two sets share a word.
    pub fn meets(self, other: Self) -> bool
        ensures { Decides result (Meet self.entry other.entry) }
    {
        self.rows
            .iter()
            .zip(&other.rows)
            .any(|(row, other)| share_a_bit(*row, *other))
    }
}

/// The set's theorems: its operations are union and concatenation cut to K tokens, for any grammar of at most 20 tokens,
/// and sets with the same words are equal.
pub fn words_stand<const K: usize>()
    ensures { CutAsWords K × WordsAreSets K }
{}
