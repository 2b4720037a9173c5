//! The numbers of a grammar's symbols: tokens from 1, the end mark, and nonterminals from the start symbol on.
#![tactic(auto)]

ghost use Rattle.std.specs.Prelude.{◌≡◌};
ghost use Rattle.symbols.specs.Symbols.{index_of};

/// The mark behind the last token.
pub const END_MARK: u8 = 31;

/// The start symbol, which is the first nonterminal.
pub const START: u8 = 32;

/// The right side of the start rule: the start symbol and the end mark.
pub static START_RIGHT: [u8; 2] = [START, END_MARK];

// Table files have these two numbers in them.
const _: () = prove!(END_MARK == 31 && START == 32);

const _: () = prove!(START_RIGHT[0] == START && START_RIGHT[1] == END_MARK);

/// A word of at most two symbols: 0 stands where there is none.
#[derive(Clone, Copy, PartialEq, Eq, Debug)]
pub struct Word {
    pub first: u8,
    pub second: u8,
}

/// Which nonterminal a symbol is, counted from the start symbol, which is 0. Tokens and the end mark are none.
pub fn nonterminal_index(symbol: u8) -> Option<usize>
    ensures { result ≡ index_of symbol }
{
    symbol.checked_sub(START).map(usize::from)
}
