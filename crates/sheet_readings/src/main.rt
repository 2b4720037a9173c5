//! Reads every sheet of a batch on standard input by its table, and prints the transcripts, for comparison with transcripts from elsewhere.
//!
//! Each case of the batch is a batch of its own: a table file, and sheets. A case comes behind a line with the decimal number of its bytes.
#![tactic(auto)]

ghost use Rattle.admission.specs.Admitting.{HasRoom};

use admission::{MOST_FRAMES, STORE_BYTES, admit};
use anyhow::{Context, bail, ensure};
use batches::Cases;
use load::Loaded;
use std::env::{self, Env, FillError};
use std::io;
use std::io::{BufWriter, Read, Write};
use table::checked;
use transcript::transcribe_sheet;

// Stands behind the length of a case.
const MARK: u8 = b'\n';

/// Admits the table of a group into this memory, and writes the transcripts of the group's sheets by it.
fn write_group<W: Write>(
    group: &[u8],
    store: &mut [u8],
    starts: &mut [usize],
    out: &mut W,
) -> anyhow::Result<()> {
    let mut cases = Cases {
        batch: group,
        mark: MARK,
        closing: b"",
    };
    let text = cases
        .next()
        .context("it has no table")?
        .context("its table")?;
    match admit(text, store, starts) {
        Ok(accepted) => {
            let Loaded { frames, bytes } = accepted.loaded;
            let table = checked(store, starts, frames, bytes);
            for (number, sheet) in (1u32..).zip(cases) {
                let sheet = sheet.context(format_args!("its sheet {number}"))?;
                transcribe_sheet(table, sheet, out).context("a line cannot be written")?;
            }
        }
        Err(refused) => writeln!(out, "{refused}").context("a line cannot be written")?,
    }
    Ok(())
}

/// Writes the transcripts of all groups of a batch. The memory has room for every table.
fn write_groups<W: Write>(
    batch: &[u8],
    store: &mut [u8],
    starts: &mut [usize],
    out: &mut W,
) -> anyhow::Result<()>
    requires room { HasRoom store.old starts.old }
{
    let groups = Cases {
        batch,
        mark: MARK,
        closing: b"",
    };
    for (number, group) in (1u32..).zip(groups) {
        let group = group.context(format_args!("case {number} of the batch"))?;
        write_group(group, store, starts, out).context(format_args!("case {number} of the batch"))?;
    }
    Ok(())
}

fn main(rt: HostRuntime) -> anyhow::Result<()> {
    // where there is none, nothing has to be text, not even the program's own name
    if !matches!(rt.arg(1, &mut []), Err(FillError::NotPresent)) {
        env::args(&rt).context("the arguments cannot be read")?;
        bail!("no argument is wanted: sheet_readings < BATCH");
    }
    let mut input = Vec::new(rt.alloc());
    rt.stdin()
        .read_to_end(&mut input)
        .context("the batch on standard input cannot be read")?;
    ensure!(!input.is_empty(), "the batch on standard input is empty");
    let mut store = vec![in rt.alloc(); 0u8; STORE_BYTES]?;
    let mut starts = vec![in rt.alloc(); 0usize; MOST_FRAMES]?;
    let mut out = BufWriter::new(rt.alloc(), io::writer(&rt))?;
    // what is written before a broken case is printed too
    let written = write_groups(&input, &mut store, &mut starts, &mut out);
    out.flush().context("standard output cannot be written")?;
    written
}
