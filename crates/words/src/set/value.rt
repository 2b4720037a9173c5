//! Sets of words as values of the solver. A product costs two passes over the rows.
ghost use Rattle.std.specs.Prelude.{◌≡◌, if◌then◌else◌, nat_lt, bit_or};
ghost use Rattle.words.specs.Rows.{heads, row_product};
ghost use Rattle.words.specs.Sets.{word_kind, count};
ghost use Rattle.words.specs.WordLaws.{word_laws, rows_decide};

use super::Words;
use solver::Value;
use std::array;
use symbols::Word;

// The number of words of at most two tokens: 1 + 20 + 20 * 20.
const WORDS: usize = 421;

fn joined_row(row: u32, other: u32) -> u32
    ensures { result ≡ bit_or row other }
{
    row | other
}

// Bit a of the result says whether row a has a word.
fn heads_of(rows: [u32; 21]) -> u32
    ensures { result ≡ heads rows }
{
    let mut found = 0;
    for a in (0..21).rev() {
        found = found * 2 + u32::from(rows[a] != 0);
    }
    found
}

// What can follow a word of one token, as a row: where words are cut to one token, nothing.
fn following(k: usize, heads: u32) -> u32
    ensures { result ≡ (if nat_lt k 2 then 1 else heads) }
{
    if k < 2 { 1 } else { heads }
}

// The empty word is in a product if it is in both sets.
fn first_row(empty: bool, row: u32) -> u32
    ensures { result ≡ (if empty then row else 0) }
{
    if empty { row } else { 0 }
}

// A row of a product of two sets: x is the row of the first, y that of the second, which counts if the first has the empty
// word. The word of one token goes on by what `after` has.
fn product_row(x: u32, y: u32, empty: bool, after: u32) -> u32
    ensures { result ≡ row_product x y empty after }
{
    let longer = if x % 2 == 1 { (x - 1) | after } else { x };
    if empty { longer | y } else { longer }
}

impl<const K: usize> Value for Words<K> {
    ghost kind = { word_kind K };

    ghost height = { count };

    ghost CHAIN = { 421 };

    ghost laws = { word_laws K };

    const CHAIN: usize = WORDS;

    fn bottom() -> Self {
        Words { rows: [0; 21] }
    }

    fn unit() -> Self {
        Self::of_token(0)
    }

    // a number of no token gives no word, but 0 the empty one
    fn of_token(token: u8) -> Self {
        let mut words = Self::bottom();
        words.insert(Word {
            first: token,
            second: 0,
        });
        words
    }

    fn join(self, other: Self) -> Self {
        Words {
            rows: array::from_fn(|a| joined_row(self.rows[a], other.rows[a])),
        }
    }

    fn times(self, other: Self) -> Self {
        let heads = heads_of(other.rows);
        if heads == 0 {
            return Self::bottom();
        }
        let after = following(K, heads);
        let empty = self.rows[0] == 1;
        let mut rows = [0; 21];
        // `array::from_fn` makes the product slower by a fifth
        for a in 1..21 {
            rows[a] = product_row(self.rows[a], other.rows[a], empty, after);
        }
        rows[0] = first_row(empty, other.rows[0]);
        Words { rows }
    }

    ghost equals = { rows_decide K };
}
