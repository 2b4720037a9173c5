//! The admission of a table.
ghost use Rattle.std.specs.Prelude.{◌≡◌, length};
ghost use Rattle.load.specs.Loading.{loaded, store_after, starts_after};
ghost use Rattle.admission.specs.Admitting.{Admits};

use crate::outcome::{Accepted, Refused};
use load::load;
use table::{check, checked};

/// Loads a text into the store and the starts, and checks the table that it holds.
pub fn admit(text: &[u8], store: &mut [u8], starts: &mut [usize]) -> Result<Accepted, Refused>
    ensures answer { Admits (loaded (length store.old) (length starts.old) text.now) store.new starts.new result }
    ensures store { store.new ≡ store_after (loaded (length store.old) (length starts.old) text.now) store.old }
    ensures starts { starts.new ≡ starts_after (loaded (length store.old) (length starts.old) text.now) starts.old }
{
    let loaded = load(text, store, starts)?;
    check(store, starts, loaded.frames, loaded.bytes)?;
    let header = checked(store, starts, loaded.frames, loaded.bytes).header();
    Ok(Accepted { header, loaded })
}
