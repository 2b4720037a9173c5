//! Lists the tokens of the sheet on standard input, each with its place, or says what is wrong with it.
#![tactic(auto)]

ghost use Rattle.std.specs.Prelude.{◌≡◌, IfOk, string_bytes};
ghost use Rattle.listing.specs.Listings.{sheet_listing};

use anyhow::{Context, bail};
use listing::Listing;
use std::alloc::{AllocError, Global};
use std::env::{self, Env, FillError};
use std::io::Read;

/// All that is printed of a sheet.
fn listing_of(heap: Global, sheet: &[u8]) -> Result<String, AllocError>
    ensures { IfOk result (λ text. string_bytes text ≡ sheet_listing sheet.now) }
{
    let listing = Listing { sheet };
    format!(in heap; "{listing}")
}

fn main(rt: HostRuntime) -> anyhow::Result<()> {
    // where there is none, nothing has to be text, not even the program's own name
    if !matches!(rt.arg(1, &mut []), Err(FillError::NotPresent)) {
        env::args(&rt).context("the arguments cannot be read")?;
        bail!("no argument is wanted: list_tokens < SHEET");
    }
    let mut sheet = Vec::new(rt.alloc());
    rt.stdin()
        .read_to_end(&mut sheet)
        .context("the sheet on standard input cannot be read")?;
    rt.print(listing_of(rt.alloc(), &sheet)?)
        .context("standard output cannot be written")?;
    Ok(())
}
