//! The entries of a window, and the word of their symbols.
ghost use Rattle.std.specs.Prelude.{◌≡◌, ◌<◌, ◌≤◌, [], ◌∷◌, ◌++◌, length, drop, MatchBool, List};
ghost use Rattle.source.specs.declared.token.Entry.{Entry};
ghost use Rattle.source.specs.declared.token.Entry.TheVariants.{Given};
ghost use Rattle.source.specs.declared.token.Token.{Token};
ghost use Rattle.grammar.specs.Grammar.{Grammar};
ghost use Rattle.frames.specs.Form.{word_of};
ghost use Rattle.reading.specs.Given.{symbol_of, symbols_of, place_of};
ghost use Rattle.reading.specs.Parts.{entries, ToldBySymbol};
ghost use Rattle.reading.specs.Window.{Wants, Full};

use super::Window;
use source::{Entry, Place, Token};
use symbols::{END_MARK, Word};

// The symbol that an entry stands for.
#[inline(always)]
fn symbol_of(entry: Entry<Token>) -> u8
    ensures { result ≡ symbol_of entry }
{
    match entry {
        Entry::Given(token) => token.kind,
        Entry::End(_) => END_MARK,
    }
}

/// The place of an entry.
#[inline(always)]
pub fn place_of(entry: Entry<Token>) -> Place
    ensures { result ≡ place_of entry }
{
    match entry {
        Entry::Given(token) => token.place,
        Entry::End(place) => place,
    }
}

impl Window {
    /// A window with no entry.
    pub fn new() -> Window
        ensures { entries result ≡ [] }
    {
        let nowhere = Place::One(0);
        Window {
            symbols: Word {
                first: 0,
                second: 0,
            },
            first_place: nowhere,
            second_place: nowhere,
        }
    }

    /// Whether an entry is wanted with k symbols of lookahead: otherwise the window is full.
    // One entry is enough where k is 1 or it is the end; otherwise two are.
    #[inline(always)]
    pub fn wants(&self, k: u8) -> bool
        requires some { 1 ≤ k }
        requires few { k ≤ 2 }
        ensures { (g : Grammar) → g.k ≡ k → MatchBool result (Wants g (symbols_of (entries self.now))) (Full g (symbols_of (entries self.now))) }
    {
        let Word { first, second } = self.symbols;
        if k == 1 {
            return first == 0;
        }
        first == 0 || (second == 0 && first != END_MARK)
    }

    /// Puts an entry behind the others.
    #[inline(always)]
    pub fn push(&mut self, entry: Entry<Token>)
        requires room { length (entries self.old) < 2 }
        requires told { ToldBySymbol entry }
        ensures { entries self.new ≡ entries self.old ++ entry ∷ [] }
    {
        let symbol = symbol_of(entry);
        let place = place_of(entry);
        if self.symbols.first == 0 {
            self.symbols.first = symbol;
            self.first_place = place;
        } else {
            self.symbols.second = symbol;
            self.second_place = place;
        }
    }

    /// Takes the first entry off. It is a token.
    // Where no entry is left, no place is written.
    #[inline(always)]
    pub fn take_first(&mut self) -> Token
        requires { (t : Token) × ((es : List (Entry Token)) × (entries self.old ≡ Given t ∷ es)) }
        ensures first { (es : List (Entry Token)) × (entries self.old ≡ Given result ∷ es) }
        ensures rest { entries self.new ≡ drop 1 (entries self.old) }
    {
        let token = Token {
            kind: self.symbols.first,
            place: self.first_place,
        };
        self.symbols.first = self.symbols.second;
        if self.symbols.second != 0 {
            self.symbols.second = 0;
            self.first_place = self.second_place;
        }
        token
    }

    /// The word of the symbols.
    #[inline(always)]
    pub fn word(&self) -> Word
        requires { 0 < length (entries self.now) }
        ensures { word_of result.first result.second ≡ symbols_of (entries self.now) }
    {
        self.symbols
    }

    /// The word of the symbols with that of one entry more. A word has no symbol 0.
    #[inline(always)]
    pub fn word_with(&self, entry: Entry<Token>) -> Word
        requires room { length (entries self.now) < 2 }
        requires some { 1 ≤ symbol_of entry }
        ensures { word_of result.first result.second ≡ symbols_of (entries self.now) ++ symbol_of entry ∷ [] }
    {
        let symbol = symbol_of(entry);
        match self.symbols.first {
            0 => Word {
                first: symbol,
                second: 0,
            },
            first => Word {
                first,
                second: symbol,
            },
        }
    }
}
