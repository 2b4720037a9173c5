//! Tables: load and check.
ghost use Rattle.std.specs.Prelude.{◌≡◌, length};
ghost use Rattle.load.specs.Loading.{loaded, numbers, store_after, starts_after};
ghost use Rattle.load.specs.Refusals.{refusal_of};
ghost use Rattle.table.specs.Refusals.{refused};
ghost use Rattle.reader_c.specs.Causes.{cause};
ghost use Rattle.reader_c.specs.Tables.{load_answer, Checks};

use crate::cause::{Cause, NONE};
use load::{LoadRefusal, load};
use refusal::Numbered;
use table::{CheckRefusal, check};

/// What was loaded, or why nothing was.
#[repr(C)]
#[derive(Clone, Copy)]
pub struct LoadAnswer {
    pub cause: Cause,
    pub frames: usize,
    pub bytes: usize,
}

// Why a text was not loaded.
fn load_cause(refusal: LoadRefusal) -> Cause
    ensures { result ≡ cause (refusal_of refusal) }
{
    let line = match refusal {
        LoadRefusal::NotAFrame(line) => line,
        LoadRefusal::TextTooLong | LoadRefusal::NoRoom => 0,
    };
    Cause::with(refusal.number(), line)
}

/// Loads the text of a table file into the store and the starts.
#[unsafe(no_mangle)]
pub extern "C" fn reader_c_load(text: &[u8], store: &mut [u8], starts: &mut [usize]) -> LoadAnswer
    ensures answer { result ≡ load_answer (numbers (loaded (length store.old) (length starts.old) text.now)) }
    ensures store { store.new ≡ store_after (loaded (length store.old) (length starts.old) text.now) store.old }
    ensures starts { starts.new ≡ starts_after (loaded (length store.old) (length starts.old) text.now) starts.old }
{
    match load(text, store, starts) {
        Ok(found) => LoadAnswer {
            cause: NONE,
            frames: found.frames,
            bytes: found.bytes,
        },
        Err(refusal) => LoadAnswer {
            cause: load_cause(refusal),
            frames: 0,
            bytes: 0,
        },
    }
}

/// Why a table was refused.
pub(crate) fn check_cause(refusal: CheckRefusal) -> Cause
    ensures { result ≡ cause (refused refusal) }
{
    let lowest = match refusal {
        CheckRefusal::Frame(frame) => frame,
        CheckRefusal::Unproductive(nonterminal) | CheckRefusal::Unreachable(nonterminal) => {
            nonterminal as usize
        }
        CheckRefusal::Undefined(state)
        | CheckRefusal::EqualToLower(state)
        | CheckRefusal::NotFound(state)
        | CheckRefusal::TwoFit(state)
        | CheckRefusal::Mischosen(state) => state as usize,
    };
    Cause::with(refusal.number(), lowest)
}

/// Checks the table in the store.
#[unsafe(no_mangle)]
pub extern "C" fn reader_c_check(
    store: &[u8],
    starts: &[usize],
    frames: usize,
    bytes: usize,
) -> Cause
    ensures { Checks (record { store = store.now; starts = starts.now; frames = frames; bytes = bytes }) result }
{
    match check(store, starts, frames, bytes) {
        Ok(()) => NONE,
        Err(refusal) => check_cause(refusal),
    }
}
