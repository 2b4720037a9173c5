//! The check, row by row.
ghost use Rattle.std.specs.Prelude.{◌++◌};
ghost use Rattle.frames.specs.Raw.{Raw};
ghost use Rattle.frames.specs.Views.{raw};
ghost use Rattle.table.specs.Rows.{VerdictBy, form_rows, grammar_rows, state_rows, Verdict};
ghost use Rattle.table.specs.States.{file};

use crate::draft::Draft;
use crate::judge::Judge;
use crate::lowest::refuse;
use crate::refused::CheckRefusal;
use crate::sound::judge_grammar;
use frames::Frames;

// Judges the two numbers, the starts and the frames.
fn judge_form(frames: Frames<'_>) -> Result<(), CheckRefusal>
    ensures { VerdictBy (raw frames.entry) form_rows result }
{
    if !frames.numbers_good() {
        return Err(CheckRefusal::Frame(0));
    }
    refuse(frames.bad_start(), CheckRefusal::Frame)?;
    refuse(frames.bad_frame(), CheckRefusal::Frame)?;
    Ok(())
}

// Judges the states with the lookahead of the table.
fn judge_lookahead(draft: &Draft<'_>) -> Result<(), CheckRefusal>
    ensures { VerdictBy (file draft.now) state_rows result }
{
    if draft.header.k == 1 {
        Judge::<1> { draft }.judge_states()
    } else {
        Judge::<2> { draft }.judge_states()
    }
}

// Judges the grammar and then the states.
fn judge_contents(draft: &Draft<'_>) -> Result<(), CheckRefusal>
    ensures { VerdictBy (file draft.now) (grammar_rows ++ state_rows) result }
{
    judge_grammar(draft)?;
    judge_lookahead(draft)
}

// Judges the form, and then what the frames hold.
fn judge(frames: Frames<'_>) -> Result<(), CheckRefusal>
    ensures { Verdict (raw frames.entry) result }
{
    judge_form(frames)?;
    judge_contents(&Draft::new(frames))
}

// The memories and the two numbers come apart, as load leaves them and the check has to test them.
/// Checks a table in memory: Ok if nothing is wrong, or the earliest cause that applies, with the lowest frame,
/// nonterminal or state that it applies to. It only reads.
pub fn check<'a>(
    store: &'a [u8],
    starts: &'a [usize],
    frames: usize,
    bytes: usize,
) -> Result<(), CheckRefusal>
    ensures { Verdict (record { store = store.entry.now; starts = starts.now; frames = frames; bytes = bytes }) result }
{
    judge(Frames::new(store, starts, frames, bytes))
}
