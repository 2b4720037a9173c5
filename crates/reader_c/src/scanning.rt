//! Scanning a sheet.
ghost use Rattle.std.specs.Prelude.{◌≡◌};
ghost use Rattle.sheet.specs.Scanners.{meaning_of, scanned};
ghost use Rattle.source.specs.Refusals.{too_long};
ghost use Rattle.reader_c.specs.Causes.{cause};
ghost use Rattle.reader_c.specs.Scanning.{mixed, scan_answer, sum_up};

use crate::cause::Cause;
use refusal::Numbered;
use sheet::Scanner;
use source::{Entry, Place, Source, Token, TooLong};

/// How many tokens were found, a checksum over their kinds and places, and why the tokens end: number 0 and the place of the end, or
/// a fault's number and place, or that the sheet is too long.
#[repr(C)]
#[derive(Clone, Copy)]
pub struct ScanAnswer {
    pub cause: Cause,
    pub tokens: u32,
    pub checksum: u32,
}

/// The checksum with a token behind those that it covers.
fn mixed(checksum: u32, token: Token) -> u32
    ensures { result ≡ mixed checksum token }
{
    let (line, column) = match token.place {
        Place::One(at) => (at, 0),
        Place::Two(line, column) => (line, column),
    };
    let sum = 31 * checksum as u64 + token.kind as u64 + 32 * column as u64 + 65_536 * line as u64;
    (sum % 4_294_967_296) as u32
}

/// Why a sheet is not opened.
pub(crate) fn too_long_cause(refusal: TooLong) -> Cause
    ensures { result ≡ cause (too_long refusal) }
{
    Cause::with(refusal.number(), refusal.length)
}

/// Asks until the last entry comes.
fn sum_up(scanner: &mut Scanner<'_>) -> ScanAnswer
    ensures { result ≡ sum_up 0 0 (meaning_of (scanned scanner.old)) }
{
    let mut tokens = 0;
    let mut checksum = 0;
    let cause = 'tokens: loop {
        match scanner.next() {
            Ok(Entry::Given(token)) => {
                tokens += 1;
                checksum = mixed(checksum, token);
            }
            Ok(Entry::End(place)) => break Cause::at(0, place),
            Err(faulted) => break Cause::at(faulted.fault.number(), faulted.place),
        }
    };
    ScanAnswer {
        cause,
        tokens,
        checksum,
    }
}

/// Scans a sheet.
#[unsafe(no_mangle)]
pub extern "C" fn reader_c_scan(sheet: &[u8]) -> ScanAnswer
    ensures { result ≡ scan_answer sheet.now }
{
    match Scanner::open(sheet) {
        Ok(mut scanner) => sum_up(&mut scanner),
        Err(refusal) => ScanAnswer {
            cause: too_long_cause(refusal),
            tokens: 0,
            checksum: 0,
        },
    }
}
