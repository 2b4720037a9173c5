//! The reading of a whole sheet.
ghost use Rattle.source.specs.Meaning.{Meaning};
ghost use Rattle.table.specs.Checked.{contents};
ghost use Rattle.table.specs.Contents.{grammar_of};
ghost use Rattle.reading.specs.Sheet.{SheetRead, SheetKept};

use crate::answer::Sheet;
use crate::reading::Reading;
use crate::reading::step::MOST_MOVES;
use source::Source;
use table::CheckedTable;

/// More moves than a reading makes: once they have been asked for, it is over.
const ENOUGH_MOVES: usize = MOST_MOVES as usize + 1;

/// Reads a whole sheet by a table: opens a reading, makes a move for each place of the list, or fewer if the reading is over before, and closes it.
/// The rules announced are written to the front of the list. Where its places are used up before, the reading still runs then.
pub fn read_sheet<S: Source>(
    table: CheckedTable<'_>,
    source: &mut S,
    list: &mut [u8],
) -> Sheet<S::Fault>
    ensures read { SheetRead (contents table.entry) (S.Source.meaning source.old) list.old result (S.Source.meaning source.new) list.new }
    ensures kept { ∥ SheetKept (grammar_of (contents table.entry)) (S.Source.meaning source.old) list.old result (S.Source.meaning source.new) list.new ∥₁ }
{
    let moves = list.len().min(ENOUGH_MOVES);
    let mut reading = Reading::open(table);
    let ran = reading.run(source, moves as u32, list);
    let view = reading.close();
    Sheet {
        view,
        refusal: ran.refusal,
    }
}
