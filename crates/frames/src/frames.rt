//! The frames of a table file in memory.
ghost use Rattle.std.specs.Prelude.{◌≡◌, drop, slice_index};
ghost use Rattle.frames.specs.Raw.{part, start_of, end_of, frame, header_of, left_of, right_of, section_of};
ghost use Rattle.frames.specs.Views.{raw};

use crate::header::{Header, Section};
use symbols::START_RIGHT;

/// A table file in memory: the joined bytes of its frames, and where each begins.
// The two numbers stand beside the memories as they are given: the check has to test them.
#[derive(Clone, Copy)]
pub struct Frames<'a> {
    pub store: &'a [u8],
    pub starts: &'a [usize],
    pub frames: usize,
    pub bytes: usize,
}

// The bytes from one place up to another, as far as there are any.
fn cut<'a>(bytes: &'a [u8], from: usize, to: usize) -> &'a [u8]
    ensures { result.now ≡ part bytes.now from to }
{
    bytes.get(from..to.min(bytes.len())).unwrap_or(&[])
}

// The bytes from a place on.
fn behind<'a>(bytes: &'a [u8], from: usize) -> &'a [u8]
    ensures { result.now ≡ drop from bytes.now }
{
    bytes.get(from..).unwrap_or(&[])
}

// The byte at a place, or 0.
fn byte_at(bytes: &[u8], at: usize) -> u8
    ensures { result ≡ slice_index bytes.now at }
{
    bytes.get(at).copied().unwrap_or(0)
}

impl<'a> Frames<'a> {
    /// The frames that load wrote into these two memories.
    pub fn new(store: &'a [u8], starts: &'a [usize], frames: usize, bytes: usize) -> Frames<'a>
        ensures { raw result ≡ record { store = store.entry.now; starts = starts.now; frames = frames; bytes = bytes } }
    {
        Frames {
            store,
            starts,
            frames,
            bytes,
        }
    }

    /// Where a frame begins, or 0.
    pub fn start(self, i: u16) -> usize
        ensures { result ≡ start_of (raw self.entry) i }
    {
        self.start_at(i as usize)
    }

    // The same at any number.
    pub(crate) fn start_at(self, i: usize) -> usize
        ensures { result ≡ start_of (raw self.entry) i }
    {
        self.starts.get(i).copied().unwrap_or(0)
    }

    // Where a frame ends.
    fn end(self, i: u16) -> usize
        ensures { result ≡ end_of (raw self.entry) i }
    {
        let next = i as usize + 1;
        if next < self.frames {
            self.start_at(next)
        } else {
            self.bytes
        }
    }

    /// The bytes of a frame.
    pub fn frame(self, i: u16) -> &'a [u8]
        ensures { result.now ≡ frame (raw self.entry) i }
    {
        cut(self.store, self.start(i), self.end(i))
    }

    /// The numbers in the first frame.
    pub fn header(self) -> Header
        ensures { result ≡ header_of (raw self.entry) }
    {
        let f = self.frame(0);
        Header {
            k: byte_at(f, 1),
            t: byte_at(f, 2),
            n: byte_at(f, 3),
            p: byte_at(f, 4),
            s: byte_at(f, 5),
        }
    }

    /// The left side of a rule.
    pub fn left(self, r: u8) -> u8
        ensures { result ≡ left_of (raw self.entry) r }
    {
        byte_at(self.frame(1 + r as u16), 1)
    }

    /// The right side of a rule, the start rule too.
    pub fn right(self, r: u8) -> &'a [u8]
        ensures { result.now ≡ right_of (raw self.entry) r }
    {
        self.right_among(self.header().p, r)
    }

    // The same where the number of rules is known, which is that of the start rule.
    pub(crate) fn right_among(self, rules: u8, r: u8) -> &'a [u8]
        requires { rules ≡ (header_of (raw self)).p }
        ensures { result.now ≡ right_of (raw self.entry) r }
    {
        if r == rules {
            return &START_RIGHT;
        }
        behind(self.frame(1 + r as u16), 2)
    }

    /// The entries of a section of a state.
    pub fn section(self, q: u8, section: Section) -> &'a [u8]
        ensures { result.now ≡ section_of (raw self.entry) q section }
    {
        let i = 1 + self.header().p as u16 + 4 * q as u16 + section.place() as u16;
        behind(self.frame(i), 1)
    }
}
