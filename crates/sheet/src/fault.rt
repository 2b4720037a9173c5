//! What can be wrong with a sheet.
ghost use Rattle.std.specs.Prelude.{◌≡◌, Some};
ghost use Rattle.sheet.specs.Faults.{fault_number, reason_of};

use refusal::Numbered;
use std::fmt;

/// A fault of a sheet: a byte of no class; a quote that is still open at a hash, a line end or the end of the sheet; a
/// word or a number of more than 32 bytes.
#[derive(Clone, Copy, PartialEq, Eq, Debug)]
pub enum ScanFault {
    NoClass,
    OpenQuote,
    Oversized,
}

impl Numbered for ScanFault {
    ghost number = { fault_number };

    fn number_of(fault: Option<&ScanFault>) -> Option<u8> {
        fault.map(|fault| match fault {
            ScanFault::NoClass => 19,
            ScanFault::OpenQuote => 20,
            ScanFault::Oversized => 21,
        })
    }
}

impl ScanFault {
    /// What is wrong, in words.
    pub fn reason(&self) -> &'static str
        ensures { result.now ≡ reason_of self.now }
    {
        match self {
            ScanFault::NoClass => "byte of no class",
            ScanFault::OpenQuote => "quote not closed",
            ScanFault::Oversized => "word or number over 32 bytes",
        }
    }
}

impl fmt::Display for ScanFault {
    ghost output = { λ f. Some (reason_of f) };

    fn fmt<W: fmt::Write>(&self, f: &mut fmt::Formatter<W>) -> fmt::Result {
        f.write_str(self.reason())
    }
}
