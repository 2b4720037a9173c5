//! Cuts the first lexeme off a text.
ghost use Rattle.std.specs.Prelude.{◌≡◌, ◌==◌, ◌<◌, ◌≤◌, length, take, Ok, MatchResult, slice_index};
ghost use Rattle.byte_classes.specs.Classes.{class_of};
ghost use Rattle.byte_classes.specs.declared.class.Class.TheVariants.{Letter, Digit, Hash};
ghost use Rattle.sheet.specs.Pieces.{Cut, CutUnlessBlank};
ghost use Rattle.sheet.specs.Scan.{word_front, number_front, name_front, comment_front};
ghost use Rattle.sheet.specs.declared.fault.ScanFault.TheVariants.{Oversized};

use crate::fault::ScanFault;
use crate::lexeme::Lexeme;
use crate::run::{comment_bytes, digits_from_first, letters_from_first, name_bytes};
use byte_classes::{Class, class_of, class_of_character, keyword_of};

// The most bytes that a word or a number may have.
const MOST: usize = 32;

/// The first bytes of a text as a word or a number.
#[inline(always)]
fn limited<'a>(text: &'a [u8], len: usize) -> Result<&'a [u8], ScanFault>
    requires { len ≤ length text.now }
    ensures { MatchResult result (λ part. (len ≤ 32) × (part.now ≡ take len text.now)) (λ fault. (32 < len) × (fault ≡ Oversized)) }
{
    if len > MOST {
        return Err(ScanFault::Oversized);
    }
    Ok(&text[..len])
}

// What the first byte is stands in each of these contracts: a type for it would be made for one call each, and be no plainer.
#[tactic(auto, using(crate::proofs::Keywords::short))]
#[inline(always)]
fn word<'a>(text: &'a [u8]) -> Result<Lexeme<'a>, ScanFault>
    requires { (0 < length text.now) × (class_of (slice_index text.now 0) ≡ Letter) }
    ensures { Cut (word_front text.now) text.now result }
{
    let len = letters_from_first(text);
    match keyword_of(&text[..len]) {
        Some(keyword) => Ok(Lexeme::Keyword(keyword, &text[..len])),
        None => Ok(Lexeme::Word(limited(text, len)?)),
    }
}

#[inline(always)]
fn number<'a>(text: &'a [u8]) -> Result<Lexeme<'a>, ScanFault>
    requires { (0 < length text.now) × (class_of (slice_index text.now 0) ≡ Digit) }
    ensures { Cut (number_front text.now) text.now result }
{
    Ok(Lexeme::Number(limited(text, digits_from_first(text))?))
}

#[inline(always)]
fn comment<'a>(text: &'a [u8]) -> Lexeme<'a>
    requires { (0 < length text.now) × (class_of (slice_index text.now 0) ≡ Hash) }
    ensures { Cut (comment_front text.now) text.now (Ok result) }
{
    Lexeme::Comment(&text[..comment_bytes(text)])
}

/// What closes a name.
#[inline(always)]
fn is_quote(byte: u8) -> bool
    ensures { result ≡ (byte == 34) }
{
    matches!(class_of_character(byte), Class::Quote)
}

#[inline(always)]
fn name<'a>(text: &'a [u8]) -> Result<Lexeme<'a>, ScanFault>
    requires { 0 < length text.now }
    ensures { Cut (name_front text.now) text.now result }
{
    let inner = &text[1..];
    let n = name_bytes(inner);
    match inner.get(n) {
        Some(byte) if is_quote(*byte) => Ok(Lexeme::Name(&text[..n + 2])),
        _ => Err(ScanFault::OpenQuote),
    }
}

/// Cuts off what stands at the front of a text that is not empty. None of it where that is a blank.
#[inline(always)]
pub(crate) fn cut<'a>(text: &'a [u8]) -> Result<Option<Lexeme<'a>>, ScanFault>
    requires { 0 < length text.now }
    ensures { CutUnlessBlank text.now result }
{
    Ok(Some(match class_of(text[0]) {
        Class::Letter => word(text)?,
        Class::Digit => number(text)?,
        Class::Blank => return Ok(None),
        Class::LineEnd => Lexeme::LineEnd(&text[..1]),
        Class::Mark(mark) => Lexeme::Mark(mark, &text[..1]),
        Class::Quote => name(text)?,
        Class::Hash => comment(text),
        Class::Other => return Err(ScanFault::NoClass),
    }))
}
