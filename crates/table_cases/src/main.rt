//! Checks every table file of a batch on standard input and prints a line for each, for comparison with lines from
//! elsewhere.
//!
//! A table file comes behind a line with the decimal number of its bytes.
#![tactic(auto)]

ghost use Rattle.admission.specs.Admitting.{HasRoom};

use admission::{Line, MOST_FRAMES, STORE_BYTES, admit};
use anyhow::{Context, bail, ensure};
use batches::Cases;
use std::env::{self, Env, FillError};
use std::io;
use std::io::{BufWriter, Read, Write};

/// Writes a line for each table file of a batch. The memory has room for every table.
fn write_lines<W: Write>(
    batch: &[u8],
    store: &mut [u8],
    starts: &mut [usize],
    out: &mut W,
) -> anyhow::Result<()>
    requires room { HasRoom store.old starts.old }
{
    let texts = Cases {
        batch,
        mark: b'\n',
        closing: b"",
    };
    for (number, text) in (1u32..).zip(texts) {
        let text = text.context(format_args!("case {number} of the batch"))?;
        let outcome = admit(text, store, starts);
        writeln!(out, "{}", Line { outcome }).context("a line cannot be written")?;
    }
    Ok(())
}

fn main(rt: HostRuntime) -> anyhow::Result<()> {
    // where there is none, nothing has to be text, not even the program's own name
    if !matches!(rt.arg(1, &mut []), Err(FillError::NotPresent)) {
        env::args(&rt).context("the arguments cannot be read")?;
        bail!("no argument is wanted: table_cases < BATCH");
    }
    let mut input = Vec::new(rt.alloc());
    rt.stdin()
        .read_to_end(&mut input)
        .context("the batch on standard input cannot be read")?;
    ensure!(!input.is_empty(), "the batch on standard input is empty");
    let mut store = vec![in rt.alloc(); 0u8; STORE_BYTES]?;
    let mut starts = vec![in rt.alloc(); 0usize; MOST_FRAMES]?;
    let mut out = BufWriter::new(rt.alloc(), io::writer(&rt))?;
    // what is written before a broken case is printed too
    let written = write_lines(&input, &mut store, &mut starts, &mut out);
    out.flush().context("standard output cannot be written")?;
    written
}
