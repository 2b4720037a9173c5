//! A caller that makes a history of its own calls, and so has the promise of readings for them.
ghost use Rattle.source.specs.Layers.{skip_of};
ghost use Rattle.source.specs.Meaning.{Meaning};
ghost use Rattle.source.specs.Stored.{listed};
ghost use Rattle.table.specs.Checked.{contents};
ghost use Rattle.table.specs.Contents.{grammar_of};
ghost use Rattle.cases.specs.Histories.{Used};

use reading::{Move, Ran, ReadRefusal, Reading, View};
use source::{LayerFault, Skip, Source, StoredList};
use std::convert::Infallible;
use table::CheckedTable;

/// What the calls answered.
pub struct Watched<F> {
    pub first: Result<Move, ReadRefusal<F>>,
    pub second: Result<Move, ReadRefusal<F>>,
    pub early: View,
    pub ran: Ran<F>,
    pub view: View,
}

/// Opens, steps twice, looks, runs and closes. At the look the rules of the steps begin every left parse of what may come, at the close those and the
/// rules written do; and the close tells how the source's list came out.
pub fn watched_case<S: Source>(
    table: CheckedTable<'_>,
    source: &mut S,
    list: &mut [u8],
) -> Watched<S::Fault>
    ensures { ∥ Used (grammar_of (contents table.entry)) (S.Source.meaning source.old) result.first result.second result.ran list.new result.view ∥₁ }
{
    let mut reading = Reading::open(table);
    let first = reading.step(source);
    let second = reading.step(source);
    let early = reading.look();
    let ran = reading.run(source, 20, list);
    let view = reading.close();
    Watched {
        first,
        second,
        early,
        ran,
        view,
    }
}

/// The same over a pile of layers.
pub fn watched_pile_case(
    table: CheckedTable<'_>,
    source: &mut Skip<Skip<StoredList<'_>>>,
    list: &mut [u8],
) -> Watched<LayerFault<LayerFault<Infallible>>>
    ensures { ∥ Used (grammar_of (contents table.entry)) (skip_of (skip_of listed) source.old) result.first result.second result.ran list.new result.view ∥₁ }
{
    watched_case(table, source, list)
}
