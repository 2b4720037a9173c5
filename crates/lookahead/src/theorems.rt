//! What the sets tell of the words that they stand for.
ghost use Rattle.lookahead.specs.Theorems.{SymbolsFirst, EqualWords, NextWords, WordsMeet};

/// The theorems of stored words: a symbol's value is FIRST of it; sets are equal just when the words are the same; a set
/// is the product of FIRST(X) and another just when its words are FIRST(X words of the other); and sets meet just when a
/// word is in both.
pub fn lookahead_stands<const K: usize>()
    ensures { SymbolsFirst K × EqualWords K × NextWords K × WordsMeet K }
{}
