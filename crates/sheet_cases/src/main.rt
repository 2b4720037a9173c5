//! Lists every sheet of a batch on standard input, for comparison with listings from elsewhere.
//!
//! A sheet comes as LENGTH:BYTES, with a comma and a line end behind it.
#![tactic(auto)]

use anyhow::{Context, bail, ensure};
use batches::Cases;
use listing::Listing;
use std::env::{self, Env, FillError};
use std::io::Read;

fn main(rt: HostRuntime) -> anyhow::Result<()> {
    // where there is none, nothing has to be text, not even the program's own name
    if !matches!(rt.arg(1, &mut []), Err(FillError::NotPresent)) {
        env::args(&rt).context("the arguments cannot be read")?;
        bail!("no argument is wanted: sheet_cases < BATCH");
    }
    let mut input = Vec::new(rt.alloc());
    rt.stdin()
        .read_to_end(&mut input)
        .context("the batch on standard input cannot be read")?;
    ensure!(!input.is_empty(), "the batch on standard input is empty");
    let sheets = Cases {
        batch: &input,
        mark: b':',
        closing: b",\n",
    };
    for (number, sheet) in (1u32..).zip(sheets) {
        let sheet = sheet.context(format_args!("case {number} of the batch"))?;
        let listing = Listing { sheet };
        rt.print(format!(in rt.alloc(); "case {number}\n{listing}")?)
            .context("standard output cannot be written")?;
    }
    Ok(())
}
