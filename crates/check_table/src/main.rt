//! Checks the table file on standard input: prints its numbers, or why it is refused.
#![tactic(auto)]

ghost use Rattle.std.specs.Prelude.{◌≡◌, length, IfOk, string_bytes};
ghost use Rattle.load.specs.Loading.{loaded};
ghost use Rattle.admission.specs.Admitting.{HasRoom, Tells};

use admission::{Line, MOST_FRAMES, STORE_BYTES, admit};
use anyhow::{Context, bail};
use std::alloc::{AllocError, Global};
use std::env::{self, Env, FillError};
use std::io::Read;

/// The line that is printed of a table file, which is loaded into this memory. It has room for every table.
fn line_of(
    heap: Global,
    text: &[u8],
    store: &mut [u8],
    starts: &mut [usize],
) -> Result<String, AllocError>
    requires room { HasRoom store.old starts.old }
    ensures { IfOk result (λ line. Tells (loaded (length store.old) (length starts.old) text.now) store.new starts.new (string_bytes line)) }
{
    let line = Line {
        outcome: admit(text, store, starts),
    };
    format!(in heap; "{line}\n")
}

fn main(rt: HostRuntime) -> anyhow::Result<()> {
    // where there is none, nothing has to be text, not even the program's own name
    if !matches!(rt.arg(1, &mut []), Err(FillError::NotPresent)) {
        env::args(&rt).context("the arguments cannot be read")?;
        bail!("no argument is wanted: check_table < TABLE");
    }
    let mut text = Vec::new(rt.alloc());
    rt.stdin()
        .read_to_end(&mut text)
        .context("the table on standard input cannot be read")?;
    let mut store = vec![in rt.alloc(); 0u8; STORE_BYTES]?;
    let mut starts = vec![in rt.alloc(); 0usize; MOST_FRAMES]?;
    rt.print(line_of(rt.alloc(), &text, &mut store, &mut starts)?)
        .context("standard output cannot be written")?;
    Ok(())
}
