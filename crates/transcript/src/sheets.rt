//! The transcript of a sheet.
ghost use Rattle.std.specs.Prelude.{OnOk};
ghost use Rattle.table.specs.Checked.{contents};
ghost use Rattle.transcript.specs.Sheets.{SheetTranscribed};

use crate::telling::transcribe;
use listing::Line;
use sheet::Scanner;
use source::Skip;
use std::io;
use table::CheckedTable;

// Tables do not see the tokens of these kinds.
const LINE_END: u8 = 15;

const COMMENT: u8 = 16;

/// Reads a sheet by a table, without its line ends and comments, and writes the transcript, or the line that refuses the sheet.
pub fn transcribe_sheet<W: io::Write>(
    table: CheckedTable<'_>,
    sheet: &[u8],
    out: &mut W,
) -> io::Result<()>
    ensures { OnOk result (SheetTranscribed (contents table.entry) sheet.now (W.Write.contents out.old) (W.Write.contents out.new)) }
{
    match Scanner::open(sheet) {
        Ok(scanner) => {
            let mut tokens = Skip::new(Skip::new(scanner, LINE_END), COMMENT);
            transcribe(table, &mut tokens, out)
        }
        Err(refusal) => writeln!(out, "{}", Line::TooLong(refusal)),
    }
}
