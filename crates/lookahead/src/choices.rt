//! The words for which a rule is chosen, from the entries of a state's choices.
ghost use Rattle.std.specs.Prelude.{◌≡◌, ◌≤◌};
ghost use Rattle.frames.specs.declared.header.Header.{Header};
ghost use Rattle.words.specs.Codes.{cut};
ghost use Rattle.words.specs.Sets.{no_words};
ghost use Rattle.lookahead.specs.Entries.{AllChoices};
ghost use Rattle.lookahead.specs.Stored.{with_choice, with_choices, StandsForChoices};

use crate::entries::put_entry;
use solver::Value;
use symbols::Word;
use words::Words;

// Puts the word of an entry into the set, if the entry chooses the rule.
fn put_choice<const K: usize>(set: &mut Words<K>, rule: u8, word: Word, chosen: u8)
    ensures { set.new ≡ with_choice rule set.old word.first word.second chosen }
{
    if chosen == rule {
        put_entry(set, word);
    }
}

/// The words for which a rule is chosen by entries of four bytes: a nonterminal, the two of a word, and a rule.
pub fn chosen<const K: usize>(entries: &[u8], rule: u8) -> Words<K>
    ensures is { result ≡ with_choices rule (no_words K) entries.now }
    ensures stands { (h : Header) → h.k ≡ cut K → h.t ≤ 20 → AllChoices h entries.now → StandsForChoices h result entries.now rule }
{
    let mut found = Words::<K>::bottom();
    // a loop like that of `words_of`: one for both would take a closure and a contract of what it picks, and be no plainer
    for entry in entries.chunks_exact(4) {
        let word = Word {
            first: entry[1],
            second: entry[2],
        };
        put_choice(&mut found, rule, word, entry[3]);
    }
    found
}
