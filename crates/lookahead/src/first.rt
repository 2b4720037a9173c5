//! FIRST of a symbol.
ghost use Rattle.std.specs.Prelude.{◌≡◌};
ghost use Rattle.grammar.specs.Equations.{value};
ghost use Rattle.solver.specs.Solution.{valuation};
ghost use Rattle.words.specs.Sets.{word_kind};

use solver::symbol_value;
use words::Words;

/// FIRST of a symbol, where the sets are those of 32, 33 and so on: a token has itself. A nonterminal beyond the list has
/// no word.
pub fn first_of<const K: usize>(sets: &[Words<K>], symbol: u8) -> Words<K>
    ensures { result ≡ value (word_kind K) (valuation (word_kind K) sets.now) symbol }
{
    symbol_value(symbol, sets)
}
