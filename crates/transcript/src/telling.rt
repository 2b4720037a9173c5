//! The transcript of a reading.
ghost use Rattle.std.specs.Prelude.{IfOk, OnOk};
ghost use Rattle.table.specs.Checked.{contents};
ghost use Rattle.transcript.specs.Transcripts.{MovesWritten, Transcribed, ShowsAll};

use crate::closing::Closing;
use crate::made::MoveLine;
use reading::{ReadRefusal, Reading};
use refusal::Numbered;
use source::Source;
use std::fmt::Display;
use std::io;
use table::CheckedTable;

/// Steps until the reading is over, and writes the line of each move as it is made. The outer `Result` is the writer's, the inner one the
/// reading's.
fn write_moves<F: Numbered + Display, S: Source<Fault = F>, W: io::Write>(
    reading: &mut Reading<'_, F>,
    source: &mut S,
    out: &mut W,
) -> io::Result<Result<(), ReadRefusal<F>>>
    ensures { IfOk result (λ outcome. MovesWritten F.Numbered.number F.Display.output (W.Write.contents out.old) (W.Write.contents out.new)
        reading.old (S.Source.meaning source.old) outcome reading.new) }
{
    'moves: loop {
        let made = match reading.step(source) {
            Ok(made) => made,
            Err(refusal) => return Ok(Err(refusal)),
        };
        let line = MoveLine { made };
        if line.is_last() {
            return Ok(Ok(()));
        }
        write!(out, "{line}")?;
    }
}

/// Reads a source by a table, and writes a line for each move as it is made, and then the closing line. What was written before the writer
/// fails is left open.
pub fn transcribe<F: Numbered + Display + Copy, S: Source<Fault = F>, W: io::Write>(
    table: CheckedTable<'_>,
    source: &mut S,
    out: &mut W,
) -> io::Result<()>
    ensures { ShowsAll F.Display.output → OnOk result (Transcribed F.Numbered.number F.Display.output
        (W.Write.contents out.old) (W.Write.contents out.new) (contents table.entry) (S.Source.meaning source.old)) }
{
    let mut reading = Reading::open(table);
    let outcome = write_moves(&mut reading, source, out);
    let view = reading.close();
    let outcome = outcome?;
    writeln!(out, "{}", Closing { outcome, view })
}
