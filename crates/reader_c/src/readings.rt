//! Reading a sheet by a table.
ghost use Rattle.std.specs.Prelude.{◌≡◌};
ghost use Rattle.reading.specs.Refusals.{read_refusal};
ghost use Rattle.table.specs.Checked.{contents};
ghost use Rattle.reader_c.specs.Causes.{cause};
ghost use Rattle.reader_c.specs.Readings.{fault_number, answer_of, unread, ReadsOnce, Reads};

use crate::cause::{Cause, NONE};
use crate::scanning::too_long_cause;
use crate::tables::check_cause;
use reading::{ReadRefusal, Sheet, Standing, read_sheet};
use refusal::Numbered;
use sheet::{ScanFault, Scanner};
use source::{LayerFault, Skip};
use table::{CheckedTable, check, checked};

// Tables do not see the tokens of these kinds.
const LINE_END: u8 = 15;

const COMMENT: u8 = 16;

/// The faults that reach a reading, through two layers.
type Fault = LayerFault<LayerFault<ScanFault>>;

/// What reading a sheet came to: the tokens let in, the rules announced and written to the list, and the moves made. A reading that
/// is not over has used up the places of the list.
#[repr(C)]
#[derive(Clone, Copy)]
pub struct ReadAnswer {
    pub cause: Cause,
    pub over: bool,
    pub tokens: u32,
    pub rules: u32,
    pub moves: u32,
}

/// The table or the sheet was refused, and nothing was read.
fn unread(cause: Cause) -> ReadAnswer
    ensures { result ≡ unread cause }
{
    ReadAnswer {
        cause,
        over: false,
        tokens: 0,
        rules: 0,
        moves: 0,
    }
}

/// Why a reading ended early.
fn read_cause(refusal: ReadRefusal<Fault>) -> Cause
    ensures { result ≡ cause (read_refusal fault_number refusal) }
{
    let number = refusal.number();
    match refusal {
        ReadRefusal::Unfit(place) => Cause::at(number, place),
        ReadRefusal::Source(faulted) => Cause::by_fault(
            number,
            faulted.fault.number(),
            faulted.place,
        ),
        ReadRefusal::Over(ending) => Cause::with(number, ending.number() as usize),
        ReadRefusal::StackFull | ReadRefusal::MovesSpent | ReadRefusal::ListTooShort => {
            Cause::with(number, 0)
        }
    }
}

fn answer_of(read: Sheet<Fault>) -> ReadAnswer
    ensures { result ≡ answer_of read }
{
    let view = read.view;
    ReadAnswer {
        cause: match read.refusal {
            Some(refusal) => read_cause(refusal),
            None => NONE,
        },
        over: matches!(view.standing, Standing::Over(_)),
        tokens: view.tokens,
        rules: view.rules,
        moves: view.moves,
    }
}

/// Reads a sheet by a table.
fn read_once(table: CheckedTable<'_>, sheet: &[u8], list: &mut [u8]) -> ReadAnswer
    ensures { ReadsOnce (contents table.entry) sheet.now list.old result list.new }
{
    match Scanner::open(sheet) {
        Ok(scanner) => {
            let mut tokens = Skip::new(Skip::new(scanner, LINE_END), COMMENT);
            answer_of(read_sheet(table, &mut tokens, list))
        }
        Err(refusal) => unread(too_long_cause(refusal)),
    }
}

/// Checks a table, and reads a sheet by it; then reads the same sheet so many times more, each time writing to the same list. A checked
/// table does not cross to C, and the check is not repeated.
#[unsafe(no_mangle)]
pub extern "C" fn reader_c_read(
    store: &[u8],
    starts: &[usize],
    frames: usize,
    bytes: usize,
    sheet: &[u8],
    list: &mut [u8],
    more: u32,
) -> ReadAnswer
    ensures { Reads (record { store = store.now; starts = starts.now; frames = frames; bytes = bytes }) sheet.now more list.old result list.new }
{
    if let Err(refusal) = check(store, starts, frames, bytes) {
        return unread(check_cause(refusal));
    }
    let table = checked(store, starts, frames, bytes);
    let mut answer = read_once(table, sheet, list);
    for _ in 0..more {
        answer = read_once(table, sheet, list);
    }
    answer
}
