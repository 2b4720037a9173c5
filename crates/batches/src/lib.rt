//! The cases of a batch, one behind the other.
//!
//! Each case stands behind its length, in one to nine decimal digits, and a mark of one byte, and may have bytes behind it that close
//! it: LENGTH:BYTES, or LENGTH and BYTES on the lines below.
#![tactic(auto)]

ghost use Rattle.std.specs.Prelude.{◌≡◌, ◌+◌, ◌^◌, ◌<◌, ◌≤◌, [], length, take, drop, MatchOption, MatchResult, IfSome, Some, SomeIff};
ghost use Rattle.std.specs.Char.{is_ascii_digit};
ghost use Rattle.std.specs.Iterator.{at_most};
ghost use Rattle.std.specs.List.{prefix_len};
ghost use Rattle.std.specs.Str.Parse.{AllDigits, digits_value};
ghost use Rattle.batches.specs.Cases.{digits, behind, Closed, Whole, First, not_whole};

use std::error::Error;
use std::{fmt, str};

/// What is left of a batch.
#[derive(Clone, Copy)]
pub struct Cases<'a> {
    pub batch: &'a [u8],
    /// Stands behind the length of each case.
    pub mark: u8,
    /// Stand behind each case.
    pub closing: &'a [u8],
}

/// Something is left of a batch, but no whole case stands at its front.
#[derive(Clone, Copy, PartialEq, Eq, Debug)]
pub struct NotWhole;

// A length has at most as many digits as this.
const MOST_DIGITS: usize = 9;

/// The number that these digits write, if there are any and it is no larger than a length.
#[tactic(auto, using(crate::proofs::Digits::digits_are_text))]
fn parse(digits: &[u8]) -> Option<usize>
    requires { AllDigits 10 digits.now }
    ensures { SomeIff result ((0 < length digits.now) × (digits_value 10 digits.now < 2 ^ 64)) (digits_value 10 digits.now) }
{
    str::from_utf8(digits).ok()?.parse().ok()
}

/// The number that at most nine digits write, if there are any.
#[tactic(auto, using(crate::proofs::Digits::short))]
fn number(digits: &[u8]) -> Option<usize>
    requires digits { AllDigits 10 digits.now }
    requires few { length digits.now ≤ 9 }
    ensures { SomeIff result (0 < length digits.now) (digits_value 10 digits.now) }
{
    parse(digits)
}

/// How many digits stand in front.
fn count_digits(batch: &[u8]) -> usize
    ensures digits { result ≡ prefix_len is_ascii_digit batch.now }
    ensures within { result ≤ length batch.now }
{
    batch
        .iter()
        .take_while(|byte| byte.is_ascii_digit())
        .count()
}

/// How many of them are a length's.
fn length_digits(batch: &[u8]) -> usize
    ensures digits { result ≡ length (digits batch.now) }
    ensures few { result ≤ 9 }
    ensures within { result ≤ length batch.now }
{
    count_digits(batch).min(MOST_DIGITS)
}

/// The digits in front, and what follows them.
fn split_digits(batch: &[u8]) -> (&[u8], &[u8])
    ensures front { result.0.now ≡ digits batch.now }
    ensures behind { result.1.now ≡ behind batch.now }
    ensures digits { AllDigits 10 result.0.now }
    ensures few { length result.0.now ≤ 9 }
{
    batch.split_at(length_digits(batch))
}

/// What of a case of this size stands behind its length: the case, and what follows the bytes that close it.
fn split_case<'a>(
    behind: &'a [u8],
    size: usize,
    mark: u8,
    closing: &[u8],
) -> Option<(&'a [u8], &'a [u8])>
    ensures { MatchOption result (¬ (Closed mark closing.now size behind.entry.now)) (λ cut. Closed mark closing.now size behind.entry.now
        × (cut.0.now ≡ take size (drop 1 behind.entry.now)) × (cut.1.now ≡ drop (length closing.now) (drop size (drop 1 behind.entry.now)))) }
{
    let (case, rest) = behind.strip_prefix(&[mark])?.split_at_checked(size)?;
    Some((case, rest.strip_prefix(closing)?))
}

/// The first case of a batch and what follows it, or nothing where no whole case stands in front.
#[tactic(auto, using(crate::proofs::Cutting::shorter))]
fn split_first<'a>(batch: &'a [u8], mark: u8, closing: &[u8]) -> Option<(&'a [u8], &'a [u8])>
    ensures first { MatchOption result (¬ (Whole mark closing.now batch.entry.now)) (λ cut. First mark closing.now batch.entry.now cut.0.now cut.1.now) }
    ensures less { IfSome result (λ cut. length cut.1.now < length batch.entry.now) }
{
    let (front, behind) = split_digits(batch);
    split_case(behind, number(front)?, mark, closing)
}

impl fmt::Display for NotWhole {
    ghost output = { λ _. Some not_whole };

    fn fmt<W: fmt::Write>(&self, f: &mut fmt::Formatter<W>) -> fmt::Result {
        f.write_str(
            "it is not whole: a length, its mark, as many bytes and what closes them are wanted",
        )
    }
}

impl Error for NotWhole {}

impl<'a> Iterator for Cases<'a> {
    type Item = Result<&'a [u8], NotWhole>;

    ghost next_gives = { λ s r t. MatchOption r ((s.batch.now ≡ []) × (t ≡ s)) (λ answer. MatchResult answer
        (λ case. First s.mark s.closing.now s.batch.now case.now t.batch.now × ((t.mark ≡ s.mark) × (t.closing.now ≡ s.closing.now)))
        (λ _. (¬ (Whole s.mark s.closing.now s.batch.now)) × (t.batch.now ≡ []))) };

    ghost remaining = { λ s. at_most (length s.batch.now) };

    /// The first case. Where none is whole, that is said once, and nothing is left.
    fn next(&mut self) -> Option<Result<&'a [u8], NotWhole>> {
        if self.batch.is_empty() {
            return None;
        }
        let Some((case, rest)) = split_first(self.batch, self.mark, self.closing) else {
            self.batch = &[];
            return Some(Err(NotWhole));
        };
        self.batch = rest;
        Some(Ok(case))
    }
}
