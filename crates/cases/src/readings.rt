//! Readings by the tables, and what they come to.
ghost use Rattle.std.specs.Prelude.{◌≡◌, true};
ghost use Rattle.std.specs.List.{AllByRecursion};
ghost use Rattle.std.specs.Option.{is_some, IfSome};
ghost use Rattle.cases.specs.Readings.{Reads, readings, reading_of, report_of, sheet_of, a_sentence, nothing, second_unfit, closed_wrongly};

use crate::tables::{ACCEPTED, ACCEPTED_STARTS, ENCLOSING, ENCLOSING_STARTS, verdict_of};
use reading::{Ran, Reading, Sheet, View, read_sheet};
use source::StoredList;
use std::convert::Infallible;
use table::checked;

/// What a run of 20 moves came to: its answer, the list with the rules at its front, and what a look showed then.
#[derive(Clone, Copy)]
pub struct Report {
    pub ran: Ran<Infallible>,
    pub list: [u8; 20],
    pub view: View,
}

/// A sentence is read. A list that is none is refused at the first token that cannot follow, or at its end, and no rule is announced after that.
pub fn readings_stand()
    ensures { AllByRecursion Reads readings }
{}

// Reads these kinds by the table in these frames, where they are those of a reading whose outcome is known.
fn report_on(store: &[u8], starts: &[usize], kinds: &[u8]) -> Report
    requires { is_some (reading_of store.now starts.now kinds.now) ≡ true }
    ensures { IfSome (reading_of store.entry.now starts.now kinds.now) (λ e. result ≡ report_of e) }
{
    let Ok(()) = verdict_of(store, starts) else {
        unreachable!()
    };
    let table = checked(store, starts, starts.len(), store.len());
    let Ok(mut source) = StoredList::open(kinds) else {
        unreachable!()
    };
    let mut reading = Reading::open(table);
    let mut list = [0; 20];
    let ran = reading.run(&mut source, 20, &mut list);
    let view = reading.close();
    Report { ran, list, view }
}

// Reads these kinds as a whole sheet by the table in these frames, where they are those of a reading whose outcome is known.
fn sheet_on(store: &[u8], starts: &[usize], kinds: &[u8]) -> Sheet<Infallible>
    requires { is_some (reading_of store.now starts.now kinds.now) ≡ true }
    ensures { IfSome (reading_of store.entry.now starts.now kinds.now) (λ e. result ≡ sheet_of e) }
{
    let Ok(()) = verdict_of(store, starts) else {
        unreachable!()
    };
    let table = checked(store, starts, starts.len(), store.len());
    let Ok(mut source) = StoredList::open(kinds) else {
        unreachable!()
    };
    read_sheet(table, &mut source, &mut [0; 20])
}

/// 2 1 1 is read by the first table.
pub fn sentence_case() -> Report
    ensures { result ≡ report_of a_sentence }
{
    report_on(ACCEPTED, &ACCEPTED_STARTS, &[2, 1, 1])
}

/// The empty list is refused by it.
pub fn nothing_case() -> Report
    ensures { result ≡ report_of nothing }
{
    report_on(ACCEPTED, &ACCEPTED_STARTS, &[])
}

/// 2 2 is refused by it.
pub fn second_unfit_case() -> Report
    ensures { result ≡ report_of second_unfit }
{
    report_on(ACCEPTED, &ACCEPTED_STARTS, &[2, 2])
}

/// 1 2 is refused by the table of enclosing rules.
pub fn closed_wrongly_case() -> Report
    ensures { result ≡ report_of closed_wrongly }
{
    report_on(ENCLOSING, &ENCLOSING_STARTS, &[1, 2])
}

/// 2 1 1 is read by the first table in one call.
pub fn whole_sheet_case() -> Sheet<Infallible>
    ensures { result ≡ sheet_of a_sentence }
{
    sheet_on(ACCEPTED, &ACCEPTED_STARTS, &[2, 1, 1])
}
