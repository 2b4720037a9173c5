//! Reads the sheet on standard input by the table file that its argument names: prints a line for each move as it is made and a closing line,
//! or why the table or the sheet is refused.
#![tactic(auto)]

ghost use Rattle.std.specs.Prelude.{length, OnOk};
ghost use Rattle.load.specs.Loading.{loaded};
ghost use Rattle.read_sheet.specs.Printing.{Prints};
ghost use Rattle.admission.specs.Admitting.{HasRoom};

use admission::{MOST_FRAMES, STORE_BYTES, admit};
use anyhow::{Context, bail};
use load::Loaded;
use std::io::{LineWriter, Read, Write};
use std::{env, fs, io};
use table::checked;
use transcript::transcribe_sheet;

/// Admits the table of a text into this memory, which has room for every table, and reads a sheet by it.
fn read_by_text<W: Write>(
    text: &[u8],
    sheet: &[u8],
    store: &mut [u8],
    starts: &mut [usize],
    out: &mut W,
) -> io::Result<()>
    requires room { HasRoom store.old starts.old }
    ensures { OnOk result (Prints (loaded (length store.old) (length starts.old) text.now) store.new starts.new sheet.now
        (W.Write.contents out.old) (W.Write.contents out.new)) }
{
    match admit(text, store, starts) {
        Ok(accepted) => {
            let Loaded { frames, bytes } = accepted.loaded;
            transcribe_sheet(checked(store, starts, frames, bytes), sheet, out)
        }
        Err(refused) => writeln!(out, "{refused}"),
    }
}

fn main(rt: HostRuntime) -> anyhow::Result<()> {
    let mut arguments = env::args(&rt).context("the arguments cannot be read")?;
    let (Some(path), None) = (arguments.nth(1), arguments.next()) else {
        bail!("one argument is wanted, the name of a table file: read_sheet TABLE < SHEET");
    };
    let text = fs::read(&rt, path.as_str()).context(format_args!(
        "the table file {path} cannot be read"
    ))?;
    let mut sheet = Vec::new(rt.alloc());
    rt.stdin()
        .read_to_end(&mut sheet)
        .context("the sheet on standard input cannot be read")?;
    let mut store = vec![in rt.alloc(); 0u8; STORE_BYTES]?;
    let mut starts = vec![in rt.alloc(); 0usize; MOST_FRAMES]?;
    let mut out = LineWriter::new(rt.alloc(), io::writer(&rt))?;
    read_by_text(&text, &sheet, &mut store, &mut starts, &mut out).context(
        "standard output cannot be written",
    )?;
    out.flush().context("standard output cannot be written")?;
    Ok(())
}
