//! The listing of a whole sheet.
ghost use Rattle.std.specs.Prelude.{Some};
ghost use Rattle.std.specs.Fmt.{WritesOnOk};
ghost use Rattle.sheet.specs.Scanners.{scanned};
ghost use Rattle.listing.specs.Listings.{listing, sheet_listing};

use crate::line::Line;
use sheet::Scanner;
use std::fmt;

/// A line for each token of the sheet, and one for its end or its fault, or one that refuses the sheet as too long.
#[derive(Clone, Copy)]
pub struct Listing<'a> {
    pub sheet: &'a [u8],
}

fn write_lines<W: fmt::Write>(scanner: &mut Scanner, f: &mut fmt::Formatter<W>) -> fmt::Result
    ensures { WritesOnOk W.Write.write_str_gives f.old result (listing (scanned scanner.old)) f.new }
{
    'lines: loop {
        let line = Line::from(scanner.next_lexeme());
        writeln!(f, "{line}")?;
        if line.is_last() {
            return Ok(());
        }
    }
}

impl<'a> fmt::Display for Listing<'a> {
    ghost output = { λ l. Some (sheet_listing l.sheet.now) };

    fn fmt<W: fmt::Write>(&self, f: &mut fmt::Formatter<W>) -> fmt::Result {
        match Scanner::open(self.sheet) {
            Ok(mut scanner) => write_lines(&mut scanner, f),
            Err(refusal) => writeln!(f, "{}", Line::TooLong(refusal)),
        }
    }
}
