//! Loading: a pass that only reads and finds every refusal, then a pass that writes.
ghost use Rattle.std.specs.Prelude.{◌≡◌, ◌+◌, ◌/◌, ◌^◌, ◌<◌, ◌≤◌, true, length, is_ok, slice_set};
ghost use Rattle.load.specs.Counts.{none, and_frame, counted, concluded};
ghost use Rattle.load.specs.Digits.{all_digits, decoded};
ghost use Rattle.load.specs.Frames.{TextLaw};
ghost use Rattle.load.specs.Laws.{Loads};
ghost use Rattle.load.specs.Lines.{frames_in};
ghost use Rattle.load.specs.Loading.{loaded, numbers, store_after, starts_after};

use crate::digit::decode_into;
use crate::fault::LoadRefusal;
use crate::line::Frames;

// The most bytes that a text may have.
const MAX_TEXT: usize = 1_048_576;

/// How many frames were loaded, and how many bytes they have.
#[derive(Clone, Copy, PartialEq, Eq, Debug)]
pub struct Loaded {
    pub frames: usize,
    pub bytes: usize,
}

const NONE: Loaded = Loaded {
    frames: 0,
    bytes: 0,
};

impl Loaded {
    /// With one frame more.
    fn and_frame(self, digits: &[u8]) -> Self
        requires frames { self.frames + 1 < 2 ^ 64 }
        requires bytes { self.bytes + length digits.now / 2 < 2 ^ 64 }
        ensures { result ≡ and_frame self digits.now }
    {
        Loaded {
            frames: self.frames + 1,
            bytes: self.bytes + digits.len() / 2,
        }
    }
}

/// The answer where these frames were found, and none stands at the front of the rest.
fn conclude(found: Loaded, rest: &[u8]) -> Result<Loaded, LoadRefusal>
    requires { found.frames + length rest.now < 2 ^ 64 }
    ensures { result ≡ concluded found (length rest.now) }
{
    if rest.is_empty() {
        return Ok(found);
    }
    Err(LoadRefusal::NotAFrame(found.frames + 1))
}

/// Counts the frames of a text and their bytes, or finds the first line that is no frame.
fn scan(text: &[u8]) -> Result<Loaded, LoadRefusal>
    ensures { result ≡ counted none (frames_in text.now) }
{
    let mut found = NONE;
    let mut frames = Frames { rest: text };
    // the proof of a `for` over `frames.by_ref()` did not close: what is left behind the last frame is looked at afterwards
    'frames: while let Some(digits) = frames.next() {
        found = found.and_frame(digits);
    }
    conclude(found, frames.rest)
}

/// What would be loaded into a store and a list of starts of these lengths.
fn admit(text: &[u8], store: usize, starts: usize) -> Result<Loaded, LoadRefusal>
    ensures { result ≡ numbers (loaded store starts text.now) }
{
    if text.len() > MAX_TEXT {
        return Err(LoadRefusal::TextTooLong);
    }
    let found = scan(text)?;
    if found.bytes > store || found.frames > starts {
        return Err(LoadRefusal::NoRoom);
    }
    Ok(found)
}

// No struct of the two memories and the count: it would serve one loop, its methods would have to keep both references, and
// callers lend the memories apart.
/// Writes a frame and its start behind those that are written, and counts it.
fn write_frame(digits: &[u8], store: &mut [u8], starts: &mut [usize], written: Loaded) -> Loaded
    requires digits { all_digits digits.now ≡ true }
    requires store { written.bytes + length digits.now / 2 ≤ length store.old }
    requires starts { written.frames < length starts.old }
    ensures counts { result ≡ and_frame written digits.now }
    ensures store { store.new ≡ decoded digits.now written.bytes store.old }
    ensures starts { starts.new ≡ slice_set starts.old written.frames written.bytes }
{
    starts[written.frames] = written.bytes;
    decode_into(digits, store, written.bytes);
    written.and_frame(digits)
}

/// Writes the frames of a text that is admitted.
fn fill(text: &[u8], store: &mut [u8], starts: &mut [usize])
    requires { is_ok (loaded (length store.old) (length starts.old) text.now) ≡ true }
    ensures store { store.new ≡ store_after (loaded (length store.old) (length starts.old) text.now) store.old }
    ensures starts { starts.new ≡ starts_after (loaded (length store.old) (length starts.old) text.now) starts.old }
{
    let mut written = NONE;
    for digits in (Frames { rest: text }) {
        written = write_frame(digits, store, starts, written);
    }
}

/// Loads a text: writes the bytes of its frames, joined, to the front of the store, and the index of each frame's first
/// byte to the front of the starts, nothing behind them.
///
/// What is refused is, before all else, a text that is too long; then the first line that is no frame; then a store or
/// starts that are too short. A refusal writes nothing.
#[tactic(auto, using(crate::proofs::Standing::load_law, crate::proofs::Standing::load_takes))]
pub fn load(text: &[u8], store: &mut [u8], starts: &mut [usize]) -> Result<Loaded, LoadRefusal>
    ensures answer { result ≡ numbers (loaded (length store.old) (length starts.old) text.now) }
    ensures store { store.new ≡ store_after (loaded (length store.old) (length starts.old) text.now) store.old }
    ensures starts { starts.new ≡ starts_after (loaded (length store.old) (length starts.old) text.now) starts.old }
    ensures means { Loads text.now store.old starts.old result store.new starts.new }
{
    let found = admit(text, store.len(), starts.len())?;
    fill(text, store, starts);
    Ok(found)
}

/// What the frames of a text are, in words. It does nothing; its contract is the law.
#[tactic(auto, using(crate::proofs::Reading::text_law))]
pub fn text_law(text: &[u8])
    ensures { TextLaw text.now (frames_in text.now) }
{}
