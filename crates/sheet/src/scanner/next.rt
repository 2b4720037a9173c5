//! Asking a scanner.
ghost use Rattle.std.specs.Prelude.{◌≡◌, ◌<◌, length, slice_index, Ok};
ghost use Rattle.byte_classes.specs.Classes.{class_of};
ghost use Rattle.byte_classes.specs.declared.class.Class.TheVariants.{Blank};
ghost use Rattle.sheet.specs.Pieces.{Cut};
ghost use Rattle.sheet.specs.Scan.{front, before};
ghost use Rattle.sheet.specs.Scanners.{scanned, spot_of, meaning_of, Gives};
ghost use Rattle.sheet.specs.Short.{few_left};

use crate::cut::cut;
use crate::fault::ScanFault;
use crate::lexeme::{Lexeme, PlacedLexeme};
use crate::run::blanks_from_first;
use crate::scanner::Scanner;
use source::{Entry, Faulted, Place, Source, Token};

impl<'a> Scanner<'a> {
    /// Passes the blanks at the front, where there is one: they are no part of what is to come.
    #[tactic(auto, using(crate::proofs::Steps::passes))]
    #[inline(always)]
    fn pass_blanks(&mut self)
        requires { (0 < length self.now.rest.now) × (class_of (slice_index self.now.rest.now 0) ≡ Blank) }
        ensures same { scanned self.new ≡ scanned self.old }
        ensures shorter { length self.new.rest.now < length self.old.rest.now }
    {
        let blanks = blanks_from_first(self.rest);
        self.rest = &self.rest[blanks..];
        self.at = self.at.along(blanks as u32);
    }

    /// Drops this lexeme, which was cut off the front.
    #[inline(always)]
    fn dropping(&mut self, lexeme: Lexeme<'a>) -> PlacedLexeme<'a>
        requires { Cut (front self.now.rest.now) self.now.rest.now (Ok lexeme) }
        ensures { scanned self.old ≡ before (spot_of result) (scanned self.new) }
    {
        let place = Place::from(self.at);
        let len = lexeme.text().len();
        self.rest = &self.rest[len..];
        self.at = self.at.behind(lexeme, len as u32);
        PlacedLexeme { lexeme, place }
    }

    /// Gives the first lexeme and drops it; the end or a fault stays, however often it is asked for.
    #[tactic(auto, using(crate::proofs::Steps::gives_fault))]
    #[inline(always)]
    pub fn next_lexeme(&mut self) -> Result<Entry<PlacedLexeme<'a>>, Faulted<ScanFault>>
        ensures { Gives (scanned self.old) result (scanned self.new) }
    {
        'blanks: loop {
            let place = Place::from(self.at);
            if self.rest.is_empty() {
                return Ok(Entry::End(place));
            }
            match cut(self.rest).map_err(|fault| Faulted { fault, place })? {
                Some(lexeme) => return Ok(Entry::Given(self.dropping(lexeme))),
                None => self.pass_blanks(),
            }
        }
    }
}

impl<'a> Source for Scanner<'a> {
    type Fault = ScanFault;

    ghost meaning = { λ s. meaning_of (scanned s) };

    ghost short = { λ s. few_left s.rest.now s.at.line s.at.column s.few.0 s.few.2 };

    #[inline(always)]
    fn next(&mut self) -> Result<Entry<Token>, Faulted<ScanFault>> {
        Ok(match self.next_lexeme()? {
            Entry::Given(placed) => Entry::Given(Token::from(placed)),
            Entry::End(place) => Entry::End(place),
        })
    }
}
