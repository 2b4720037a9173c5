//! The trait of token sources.
ghost use Rattle.std.specs.Prelude.{◌≤◌, length};
ghost use Rattle.source.specs.Meaning.{Meaning, Asked};

use crate::fault::Faulted;
use crate::token::{Entry, Token};

/// Whatever hands out tokens one by one.
pub trait Source {
    /// What can go wrong in this source.
    type Fault;

    /// The tokens that are still to come, and the last entry.
    ghost meaning: { Self → Meaning Self.Fault };

    /// Gives the first entry and drops it; the last entry stays, however often it is asked for.
    fn next(&mut self) -> Result<Entry<Token>, Faulted<Self::Fault>>
        ensures { Asked (meaning self.old) result (meaning self.new) };

    /// A source has at most 60,000 tokens.
    ghost short: { (s : Self) → length (meaning s).tokens ≤ 60000 };
}
