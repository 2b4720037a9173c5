//! The words of a state, from the entries of its frame.
ghost use Rattle.std.specs.Prelude.{◌≡◌, ◌≤◌};
ghost use Rattle.frames.specs.declared.header.Header.{Header};
ghost use Rattle.words.specs.Codes.{cut};
ghost use Rattle.words.specs.Sets.{no_words};
ghost use Rattle.lookahead.specs.Entries.{AllWords};
ghost use Rattle.lookahead.specs.Stored.{first_number, second_number, with_entry, with_entries, StandsFor};

use solver::Value;
use symbols::{END_MARK, Word};
use words::Words;

// The word of an entry without its end mark.
fn stored(word: Word) -> Word
    ensures first { result.first ≡ first_number word.first }
    ensures second { result.second ≡ second_number word.first word.second }
{
    if word.first == END_MARK {
        Word {
            first: 0,
            second: 0,
        }
    } else if word.second == END_MARK {
        Word { second: 0, ..word }
    } else {
        word
    }
}

// Puts the word of an entry into the set.
pub(crate) fn put_entry<const K: usize>(set: &mut Words<K>, word: Word)
    ensures { set.new ≡ with_entry set.old word.first word.second }
{
    set.insert(stored(word));
}

/// The words of entries of two bytes, the second 0 where there is none.
pub fn words_of<const K: usize>(entries: &[u8]) -> Words<K>
    ensures is { result ≡ with_entries (no_words K) entries.now }
    ensures stands { (h : Header) → h.k ≡ cut K → h.t ≤ 20 → AllWords h entries.now → StandsFor h result entries.now }
{
    let mut found = Words::<K>::bottom();
    for entry in entries.chunks_exact(2) {
        let word = Word {
            first: entry[0],
            second: entry[1],
        };
        put_entry(&mut found, word);
    }
    found
}
