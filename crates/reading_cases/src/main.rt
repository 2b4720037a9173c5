//! Reads every list of a batch on standard input by its table, and prints a line for each, for comparison with lines from elsewhere.
//!
//! Each case of the batch is a batch of its own: a table file, and lists of kinds. A case comes behind a line with the decimal number of its
//! bytes.
#![tactic(auto)]

ghost use Rattle.admission.specs.Admitting.{HasRoom};

use admission::{MOST_FRAMES, STORE_BYTES, admit};
use anyhow::{Context, bail, ensure};
use batches::Cases;
use listing::Line;
use load::Loaded;
use reading::Reading;
use source::StoredList;
use std::env::{self, Env, FillError};
use std::io;
use std::io::{BufWriter, Read, Write};
use table::{CheckedTable, checked};
use transcript::{Closing, Rules};

// Stands behind the length of a case.
const MARK: u8 = b'\n';

// One more than the moves that a reading makes, so that a run comes to its end.
const MOVES: u32 = 1_000_001;

/// Reads a list by a table, and writes its line. The lent memory takes the rules.
fn write_reading<W: Write>(
    table: CheckedTable<'_>,
    kinds: &[u8],
    rules: &mut [u8],
    out: &mut W,
) -> io::Result<()> {
    let mut source = match StoredList::open(kinds) {
        Ok(source) => source,
        Err(refusal) => return writeln!(out, "{}", Line::TooLong(refusal)),
    };
    let mut reading = Reading::open(table);
    let ran = reading.run(&mut source, MOVES, rules);
    let view = reading.close();
    let announced = Rules {
        rules: &rules[..ran.rules as usize],
    };
    let outcome = ran.refusal.map_or(Ok(()), Err);
    writeln!(out, "{announced}{}", Closing { outcome, view })
}

/// Admits the table of a group into this memory, and reads the group's lists by it.
fn write_group<W: Write>(
    group: &[u8],
    store: &mut [u8],
    starts: &mut [usize],
    rules: &mut [u8],
    out: &mut W,
) -> anyhow::Result<()> {
    let mut cases = Cases {
        batch: group,
        mark: MARK,
        closing: b"",
    };
    let text = cases
        .next()
        .context("it has no table")?
        .context("its table")?;
    match admit(text, store, starts) {
        Ok(accepted) => {
            let Loaded { frames, bytes } = accepted.loaded;
            let table = checked(store, starts, frames, bytes);
            for (number, kinds) in (1u32..).zip(cases) {
                let kinds = kinds.context(format_args!("its list {number}"))?;
                write_reading(table, kinds, rules, out).context("a line cannot be written")?;
            }
        }
        Err(refused) => writeln!(out, "{refused}").context("a line cannot be written")?,
    }
    Ok(())
}

/// Writes the lines of all groups of a batch. The memory has room for every table.
fn write_groups<W: Write>(
    batch: &[u8],
    store: &mut [u8],
    starts: &mut [usize],
    rules: &mut [u8],
    out: &mut W,
) -> anyhow::Result<()>
    requires room { HasRoom store.old starts.old }
{
    let groups = Cases {
        batch,
        mark: MARK,
        closing: b"",
    };
    for (number, group) in (1u32..).zip(groups) {
        let group = group.context(format_args!("case {number} of the batch"))?;
        write_group(group, store, starts, rules, out).context(format_args!(
            "case {number} of the batch"
        ))?;
    }
    Ok(())
}

fn main(rt: HostRuntime) -> anyhow::Result<()> {
    // where there is none, nothing has to be text, not even the program's own name
    if !matches!(rt.arg(1, &mut []), Err(FillError::NotPresent)) {
        env::args(&rt).context("the arguments cannot be read")?;
        bail!("no argument is wanted: reading_cases < BATCH");
    }
    let mut input = Vec::new(rt.alloc());
    rt.stdin()
        .read_to_end(&mut input)
        .context("the batch on standard input cannot be read")?;
    ensure!(!input.is_empty(), "the batch on standard input is empty");
    let mut store = vec![in rt.alloc(); 0u8; STORE_BYTES]?;
    let mut starts = vec![in rt.alloc(); 0usize; MOST_FRAMES]?;
    let mut rules = vec![in rt.alloc(); 0u8; MOVES as usize]?;
    let mut out = BufWriter::new(rt.alloc(), io::writer(&rt))?;
    // what is written before a broken case is printed too
    let written = write_groups(&input, &mut store, &mut starts, &mut rules, &mut out);
    out.flush().context("standard output cannot be written")?;
    written
}
