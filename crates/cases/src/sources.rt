//! Sources, drained.
ghost use Rattle.std.specs.Prelude.{◌≡◌, [], ◌∷◌, Ok};
ghost use Rattle.source.specs.Draining.{drained, filled};
ghost use Rattle.cases.specs.Outcomes.{none, skip_outcome, quota_outcome, sheet_outcome};
ghost use Rattle.cases.specs.Sheets.{Sheets};

use sheet::{ScanFault, Scanner};
use source::{Drained, LayerFault, Place, Quota, Skip, Source, StoredList, Token, TooLong, drain};
use std::convert::Infallible;

/// What a source of few tokens came to: its tokens at the front of the list, and why it stopped.
#[derive(Clone, Copy)]
pub struct Outcome<F> {
    pub list: [Token; 4],
    pub drained: Drained<F>,
}

const NO_TOKEN: Token = Token {
    kind: 0,
    place: Place::One(0),
};

fn outcome_of<S: Source + Drop>(mut source: S) -> Outcome<S::Fault>
    ensures list { result.list ≡ filled (none ∷ none ∷ none ∷ none ∷ []) (S.Source.meaning source) }
    ensures drained { result.drained ≡ drained 4 (S.Source.meaning source) }
{
    let mut list = [NO_TOKEN; 4];
    let drained = drain(&mut source, &mut list);
    Outcome { list, drained }
}

/// Skip 15 over 15 2 15 1 gives 2 and 1, at their places 2 and 4, and the end at 5.
pub fn skip_case() -> Result<Outcome<LayerFault<Infallible>>, TooLong>
    ensures { result ≡ Ok skip_outcome }
{
    let stored = StoredList::open(&[15, 2, 15, 1])?;
    Ok(outcome_of(Skip::new(stored, 15)))
}

/// Quota 1 over 2 1 gives 2, and then fault 22 at place 2.
pub fn quota_case() -> Result<Outcome<LayerFault<Infallible>>, TooLong>
    ensures { result ≡ Ok quota_outcome }
{
    let stored = StoredList::open(&[2, 1])?;
    Ok(outcome_of(Quota::new(stored, 1)))
}

/// The sheet `set 7 "x` gives a keyword and a number, and then fault 20 at the quote.
pub fn sheet_case() -> Result<Outcome<ScanFault>, TooLong>
    ensures runs { result ≡ Ok sheet_outcome }
    ensures others { Sheets }
{
    Ok(outcome_of(Scanner::open(b"set 7 \"x")?))
}
