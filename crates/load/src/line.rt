//! Lines, and the frame that a text begins with.
ghost use Rattle.std.specs.Prelude.{◌≡◌, ℕ, ◌<◌, ◌≤◌, length, ◌≢◌, slice_index};
ghost use Rattle.std.specs.Iterator.{at_most};
ghost use Rattle.load.specs.Fronts.{Cuts};
ghost use Rattle.load.specs.Lines.{is_frame};

use crate::digit::all_digits;

// Closes a line.
const LINE_END: u8 = b'\n';

// The most digits that a frame may have.
const MAX_DIGITS: usize = 8_192;

/// The frames that a text begins with, by their digits; the rest is behind the line ends of those that came.
#[derive(Clone, Copy)]
pub(crate) struct Frames<'a> {
    pub(crate) rest: &'a [u8],
}

/// Whether a line is a frame, if it is closed.
fn is_frame(line: &[u8]) -> bool
    ensures { result ≡ is_frame line.now }
{
    (2..=MAX_DIGITS).contains(&line.len()) && line.len() % 2 == 0 && all_digits(line)
}

/// How many bytes stand before the first line end; all of them where there is none.
fn line_len(text: &[u8]) -> usize
    ensures within { result ≤ length text.now }
    ensures inside { (k : ℕ) → k < result → slice_index text.now k ≢ 10 }
    ensures closed { result < length text.now → slice_index text.now result ≡ 10 }
{
    text.iter()
        .position(|byte| *byte == LINE_END)
        .unwrap_or(text.len())
}

impl<'a> Iterator for Frames<'a> {
    type Item = &'a [u8];

    ghost next_gives = { λ s r t. Cuts s.rest.now r t.rest.now };

    ghost remaining = { λ s. at_most (length s.rest.now) };

    /// Cuts the first line off, if a line end closes it and it is a frame.
    fn next(&mut self) -> Option<&'a [u8]> {
        let (digits, behind) = self.rest.split_at(line_len(self.rest));
        let (_, rest) = behind.split_first()?;
        if !is_frame(digits) {
            return None;
        }
        self.rest = rest;
        Some(digits)
    }
}
