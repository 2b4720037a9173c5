//! Reads any source into a list.
ghost use Rattle.std.specs.Prelude.{◌≡◌, length};
ghost use Rattle.source.specs.Draining.{drained, after_draining, filled};

use crate::fault::Faulted;
use crate::source::Source;
use crate::token::{Entry, Place, Token};

/// Why a drain stopped: the source's last entry came, or the list was full before.
// No `Result` of an `Option`: it would call a full list an end, or a fault's tokens none; the three are of one rank.
#[derive(Clone, Copy, PartialEq, Eq, Debug)]
pub enum Stop<F> {
    End(Place),
    Fault(Faulted<F>),
    Full,
}

/// How many tokens a drain wrote, and why it stopped.
#[derive(Clone, Copy, PartialEq, Eq, Debug)]
pub struct Drained<F> {
    pub tokens: usize,
    pub stop: Stop<F>,
}

/// Asks until the last entry comes or the list is full. The tokens are written to the front of the list, nothing behind
/// them.
pub fn drain<S: Source>(source: &mut S, list: &mut [Token]) -> Drained<S::Fault>
    ensures answers { result ≡ drained (length list.old) (S.Source.meaning source.old) }
    ensures leaves { S.Source.meaning source.new ≡ after_draining (length list.old) (S.Source.meaning source.old) }
    ensures writes { list.new ≡ filled list.old (S.Source.meaning source.old) }
{
    for tokens in 0..list.len() {
        match source.next() {
            Ok(Entry::Given(token)) => list[tokens] = token,
            Ok(Entry::End(place)) => return Drained {
                tokens,
                stop: Stop::End(place),
            },
            Err(fault) => return Drained {
                tokens,
                stop: Stop::Fault(fault),
            },
        }
    }
    Drained {
        tokens: list.len(),
        stop: Stop::Full,
    }
}
