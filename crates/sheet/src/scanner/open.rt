//! Opening a scanner.
ghost use Rattle.std.specs.Prelude.{◌≡◌, [], length};
ghost use Rattle.source.specs.Opening.{Opening};
ghost use Rattle.sheet.specs.Laws.{SheetLaw};
ghost use Rattle.sheet.specs.Scan.{scan};
ghost use Rattle.sheet.specs.Scanners.{scanned};

use crate::position::Position;
use crate::scanner::Scanner;
use source::{TooLong, check_length};

// Where the first byte of a sheet stands.
const FRONT: Position = Position { line: 1, column: 1 };

impl<'a> Scanner<'a> {
    /// A scanner of the empty sheet.
    pub fn new() -> Self
        ensures { scanned result ≡ scan [] }
    {
        Scanner {
            rest: &[],
            at: FRONT,
        }
    }

    /// Stands at the front of this sheet. More than 60,000 bytes are refused.
    #[tactic(auto, using(crate::proofs::Laws::sheet_law))]
    pub fn open(sheet: &'a [u8]) -> Result<Self, TooLong>
        ensures opens { Opening scanned (length sheet.now) (scan sheet.now) result }
        ensures means { SheetLaw sheet.now (scan sheet.now) }
    {
        check_length(sheet.len())?;
        Ok(Scanner {
            rest: sheet,
            at: FRONT,
        })
    }
}
