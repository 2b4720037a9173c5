//! Opening a stored list, and asking it.
ghost use Rattle.std.specs.Prelude.{◌≡◌, [], length};
ghost use Rattle.source.specs.Opening.{Opening};
ghost use Rattle.source.specs.Short.{left_short};
ghost use Rattle.source.specs.Stored.{listed, stored};

use crate::fault::{Faulted, TooLong, check_length};
use crate::source::Source;
use crate::stored::StoredList;
use crate::token::{Entry, Place, Token};
use std::convert::Infallible;

impl<'a> StoredList<'a> {
    /// A list of no bytes.
    pub fn new() -> Self
        ensures { listed result ≡ stored [] }
    {
        StoredList {
            rest: &[],
            given: 0,
        }
    }

    /// Stands at the front of these bytes. More than 60,000 are refused.
    pub fn open(kinds: &'a [u8]) -> Result<Self, TooLong>
        ensures { Opening listed (length kinds.now) (stored kinds.now) result }
    {
        check_length(kinds.len())?;
        Ok(StoredList {
            rest: kinds,
            given: 0,
        })
    }
}

impl<'a> Source for StoredList<'a> {
    type Fault = Infallible;

    ghost meaning = { listed };

    ghost short = { λ s. left_short s.rest.now s.given s.few };

    fn next(&mut self) -> Result<Entry<Token>, Faulted<Infallible>> {
        let Some((kind, rest)) = self.rest.split_first() else {
            return Ok(Entry::End(Place::One(self.given + 1)));
        };
        self.rest = rest;
        self.given += 1;
        Ok(Entry::Given(Token {
            kind: *kind,
            place: Place::One(self.given),
        }))
    }
}
