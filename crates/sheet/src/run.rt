//! Runs of bytes at the front of a text, each as long as possible.
// They differ in what ends them. One function of a closure or of the class would be no plainer: the definition of what belongs to
// a run would be a switch on which run it is.
ghost use Rattle.std.specs.Prelude.{◌≡◌, ◌<◌, ◌≤◌, length, slice_index};
ghost use Rattle.std.specs.List.{prefix_len};
ghost use Rattle.byte_classes.specs.Classes.{letter, digit, blank, class_of};
ghost use Rattle.byte_classes.specs.declared.class.Class.TheVariants.{Letter, Digit, Blank};
ghost use Rattle.sheet.specs.Runs.{in_name, in_comment};

use byte_classes::{Class, class_of};
use memchr::{memchr, memchr3};

/// How many letters.
#[inline(always)]
fn letters(text: &[u8]) -> usize
    ensures longest { result ≡ prefix_len letter text.now }
    ensures within { result ≤ length text.now }
{
    text.iter()
        .take_while(|byte| class_of(**byte) == Class::Letter)
        .count()
}

/// The same where the first byte is known to be one: it is not looked at again.
#[tactic(auto, using(crate::proofs::Leading::letters_from_first))]
#[inline(always)]
pub(crate) fn letters_from_first(text: &[u8]) -> usize
    requires { (0 < length text.now) × (class_of (slice_index text.now 0) ≡ Letter) }
    ensures longest { result ≡ prefix_len letter text.now }
    ensures within { result ≤ length text.now }
{
    1 + letters(&text[1..])
}

/// How many digits.
#[inline(always)]
fn digits(text: &[u8]) -> usize
    ensures longest { result ≡ prefix_len digit text.now }
    ensures within { result ≤ length text.now }
{
    text.iter()
        .take_while(|byte| class_of(**byte) == Class::Digit)
        .count()
}

/// The same where the first byte is known to be one: it is not looked at again.
#[tactic(auto, using(crate::proofs::Leading::digits_from_first))]
#[inline(always)]
pub(crate) fn digits_from_first(text: &[u8]) -> usize
    requires { (0 < length text.now) × (class_of (slice_index text.now 0) ≡ Digit) }
    ensures longest { result ≡ prefix_len digit text.now }
    ensures within { result ≤ length text.now }
{
    1 + digits(&text[1..])
}

/// How many blanks.
#[inline(always)]
fn blanks(text: &[u8]) -> usize
    ensures longest { result ≡ prefix_len blank text.now }
    ensures within { result ≤ length text.now }
{
    text.iter()
        .take_while(|byte| class_of(**byte) == Class::Blank)
        .count()
}

/// The same where the first byte is known to be one: it is not looked at again.
#[tactic(auto, using(crate::proofs::Leading::blanks_from_first))]
#[inline(always)]
pub(crate) fn blanks_from_first(text: &[u8]) -> usize
    requires { (0 < length text.now) × (class_of (slice_index text.now 0) ≡ Blank) }
    ensures longest { result ≡ prefix_len blank text.now }
    ensures some { 0 < result }
    ensures within { result ≤ length text.now }
{
    1 + blanks(&text[1..])
}

/// How many bytes of a name: it ends at a quote, and breaks off at a hash or a line end.
#[tactic(auto, using(crate::proofs::Leading::name_up_to_found, crate::proofs::Leading::name_within))]
#[inline(always)]
pub(crate) fn name_bytes(text: &[u8]) -> usize
    ensures longest { result ≡ prefix_len in_name text.now }
    ensures within { result ≤ length text.now }
{
    memchr3(b'"', b'#', b'\n', text).unwrap_or(text.len())
}

/// How many bytes of a comment: it ends at the line end.
#[tactic(auto, using(crate::proofs::Leading::comment_up_to_found, crate::proofs::Leading::comment_within))]
#[inline(always)]
pub(crate) fn comment_bytes(text: &[u8]) -> usize
    ensures longest { result ≡ prefix_len in_comment text.now }
    ensures within { result ≤ length text.now }
{
    memchr(b'\n', text).unwrap_or(text.len())
}
