//! Whether every nonterminal of a grammar is of use.
ghost use Rattle.std.specs.Prelude.{◌≡◌, ◌≤◌};
ghost use Rattle.frames.specs.Lowest.{Lowest};
ghost use Rattle.frames.specs.Views.{raw};
ghost use Rattle.table.specs.Marks.{Unmarked, MarksProductive, MarksReachable};
ghost use Rattle.table.specs.Rows.{productive, reachable, Answers, VerdictBy, grammar_rows};

use crate::draft::Draft;
use crate::lowest::refuse;
use crate::refused::CheckRefusal;
use items::reachable;
use solver::{Yes, productive};
use symbols::START;

// The first of n nonterminals that is not marked.
fn first_unmarked(marks: &[Yes; 24], n: u8) -> Option<u8>
    requires { n ≤ 24 }
    ensures { Lowest (Unmarked n marks.now) result }
{
    // the proof of `lowest` over the marks did not close
    for a in 0..n {
        if !marks[a as usize].0 {
            return Some(START + a);
        }
    }
    None
}

// Marks the nonterminals that derive a token string.
fn productive_marks(draft: &Draft<'_>) -> [Yes; 24]
    ensures { MarksProductive (raw draft.now.frames) result }
{
    let mut marks = [Yes(false); 24];
    productive(draft.rules(), &mut marks[0..draft.header.n as usize]);
    marks
}

// Marks the nonterminals that occur in a string derived from the start symbol.
fn reachable_marks(draft: &Draft<'_>) -> [Yes; 24]
    ensures { MarksReachable (raw draft.now.frames) result }
{
    reachable(draft.rules())
}

// The first nonterminal that derives no token string.
fn unproductive(draft: &Draft<'_>) -> Option<u8>
    ensures { Answers (raw draft.now.frames) productive result }
{
    first_unmarked(&productive_marks(draft), draft.header.n)
}

// The first nonterminal that is in no string derived from the start symbol.
fn unreachable(draft: &Draft<'_>) -> Option<u8>
    ensures { Answers (raw draft.now.frames) reachable result }
{
    first_unmarked(&reachable_marks(draft), draft.header.n)
}

/// Judges the grammar by its two rows.
pub fn judge_grammar(draft: &Draft<'_>) -> Result<(), CheckRefusal>
    ensures { VerdictBy (raw draft.now.frames) grammar_rows result }
{
    refuse(unproductive(draft), CheckRefusal::Unproductive)?;
    refuse(unreachable(draft), CheckRefusal::Unreachable)?;
    Ok(())
}
