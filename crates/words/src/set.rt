//! Sets of words of at most K tokens.
ghost use Rattle.std.specs.Prelude.{◌≡◌, ℕ, ◌^◌, ◌<◌, length, slice_index};
ghost use Rattle.words.specs.Codes.{width};

pub mod members;
pub mod value;

/// A set of words of at most K tokens, each from 1 to 20; every K below 2 means 1, and every other 2.
///
/// Row a has the words that begin with token a: bit 0 is the word a, and bit b the word a b. Row 0 has only bit 0, the
/// empty word. Without other bits, two sets with the same words are equal.
#[derive(Clone, Copy, PartialEq, Eq)]
pub struct Words<const K: usize> {
    rows: [u32; 21],
    ghost long: { length rows ≡ 21 },
    ghost fits: { (a : ℕ) → a < 21 → slice_index rows a < 2 ^ width K a },
}
