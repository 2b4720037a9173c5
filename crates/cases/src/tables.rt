//! Tables, checked. The bytes of each stand in lines: the first frame, the rules, and state by state.
ghost use Rattle.std.specs.Prelude.{◌≡◌, true, length, Ok, Err};
ghost use Rattle.table.specs.declared.refused.CheckRefusal.TheVariants.{Undefined, TwoFit};
ghost use Rattle.table.specs.Rows.{Verdict};
ghost use Rattle.cases.specs.Tables.{accepted, renumbered, misworded, left_recursive, looking_further, enclosing, examples, is_known, expected, filled, file, Tables};

use table::{CheckRefusal, check};

// The answer of the check on frames that fill their memories.
pub(crate) fn verdict_of(store: &[u8], starts: &[usize]) -> Result<(), CheckRefusal>
    ensures { Verdict (filled store.entry.now starts.now) result }
{
    check(store, starts, starts.len(), store.len())
}

// The same for the tables below, whose answers are known.
fn answer_of(store: &[u8], starts: &[usize]) -> Result<(), CheckRefusal>
    requires { is_known examples store.now starts.now ≡ true }
    ensures answer { result ≡ expected examples store.now starts.now }
    ensures verdict { Verdict (filled store.now starts.now) result }
{
    verdict_of(store, starts)
}

/// The bytes of the accepted table.
pub static ACCEPTED: &[u8; 80] = b"\x01\x01\x02\x02\x03\x05\
    \x02\x20\x02\x21\x02\x21\x01\x21\x02\x21\
    \x03\x03\x01\x04\x1f\x00\x05\x20\x01\x21\x02\x06\x20\x02\x00\x00\x21\x01\x00\x01\x21\x1f\x00\x02\
    \x03\x03\x00\x04\x02\x00\x05\x06\
    \x03\x00\x01\x01\x01\x04\x01\x00\x1f\x00\x05\x01\x03\x02\x04\x06\
    \x03\x01\x00\x04\x01\x00\x05\x06\
    \x03\x00\x00\x04\x02\x00\x05\x06";

/// Where its frames begin.
pub static ACCEPTED_STARTS: [usize; 24] = [
    0, 6, 10, 14, 16, 19, 22, 27, 40, 43, 46, 47, 48, 53, 58, 63, 64, 67, 70, 71, 72, 75, 78, 79,
];

/// The table of 32 → 2 33, 33 → 1 33 and 33 → nothing, with one token of lookahead, is accepted.
pub fn accepted_case() -> Result<(), CheckRefusal>
    ensures answer { result ≡ Ok tt }
    ensures verdict { Verdict (file accepted) result }
{
    answer_of(ACCEPTED, &ACCEPTED_STARTS)
}

static RENUMBERED: &[u8; 80] = b"\x01\x01\x02\x02\x03\x05\
    \x02\x20\x02\x21\x02\x21\x01\x21\x02\x21\
    \x03\x03\x01\x04\x1f\x00\x05\x20\x01\x21\x02\x06\x20\x02\x00\x00\x21\x01\x00\x01\x21\x1f\x00\x02\
    \x03\x03\x00\x04\x02\x00\x05\x06\
    \x03\x00\x01\x01\x01\x04\x01\x00\x1f\x00\x05\x01\x04\x02\x03\x06\
    \x03\x00\x00\x04\x02\x00\x05\x06\
    \x03\x01\x00\x04\x01\x00\x05\x06";

/// That table with states 3 and 4 exchanged is accepted too.
pub fn renumbered_case() -> Result<(), CheckRefusal>
    ensures answer { result ≡ Ok tt }
    ensures verdict { Verdict (file renumbered) result }
{
    answer_of(RENUMBERED, &ACCEPTED_STARTS)
}

static MISWORDED: &[u8; 80] = b"\x01\x01\x02\x02\x03\x05\
    \x02\x20\x02\x21\x02\x21\x01\x21\x02\x21\
    \x03\x03\x01\x04\x1f\x00\x05\x20\x01\x21\x02\x06\x20\x02\x00\x00\x21\x01\x00\x01\x21\x1f\x00\x02\
    \x03\x03\x00\x04\x02\x00\x05\x06\
    \x03\x00\x01\x01\x01\x04\x01\x00\x1f\x00\x05\x01\x03\x02\x04\x06\
    \x03\x01\x00\x04\x1f\x00\x05\x06\
    \x03\x00\x00\x04\x02\x00\x05\x06";

/// That table with the end mark as the word of state 3, which follows state 2 by a token: state 2 is not as
/// defined.
pub fn misworded_case() -> Result<(), CheckRefusal>
    ensures answer { result ≡ Err (Undefined 2) }
    ensures verdict { Verdict (file misworded) result }
{
    answer_of(MISWORDED, &ACCEPTED_STARTS)
}

static LEFT_RECURSIVE: &[u8; 71] = b"\x01\x01\x01\x01\x02\x04\
    \x02\x20\x20\x01\x02\x20\x01\
    \x03\x02\x01\x04\x1f\x00\x05\x01\x01\x20\x02\x06\x20\x01\x00\x00\x20\x01\x00\x01\
    \x03\x00\x01\x01\x00\x04\x01\x00\x05\x01\x01\x20\x03\x06\x20\x01\x00\x00\x20\x01\x00\x01\
    \x03\x02\x00\x04\x01\x00\x05\x06\
    \x03\x00\x00\x04\x01\x00\x05\x06";

static LEFT_RECURSIVE_STARTS: [usize; 19] = [
    0, 6, 10, 13, 16, 19, 24, 33, 38, 41, 46, 55, 58, 61, 62, 63, 66, 69, 70,
];

/// The table of 32 → 32 1 and 32 → 1, with one token of lookahead: at state 0 both rules fit one word.
pub fn left_recursive_case() -> Result<(), CheckRefusal>
    ensures answer { result ≡ Err (TwoFit 0) }
    ensures verdict { Verdict (file left_recursive) result }
{
    answer_of(LEFT_RECURSIVE, &LEFT_RECURSIVE_STARTS)
}

static LOOKING_FURTHER: &[u8; 95] = b"\x01\x02\x01\x01\x02\x05\
    \x02\x20\x20\x01\x02\x20\x01\
    \x03\x02\x01\x04\x1f\x00\x05\x01\x01\x20\x02\x06\x20\x01\x01\x00\x20\x01\x1f\x01\
    \x03\x00\x01\x01\x00\x04\x01\x1f\x05\x01\x03\x20\x04\x06\x20\x01\x01\x00\x20\x01\x01\x01\
    \x03\x02\x00\x04\x01\x01\x01\x1f\x05\x06\
    \x03\x00\x01\x01\x00\x04\x01\x01\x05\x01\x03\x20\x04\x06\x20\x01\x01\x00\x20\x01\x01\x01\
    \x03\x00\x00\x04\x01\x01\x05\x06";

static LOOKING_FURTHER_STARTS: [usize; 23] = [
    0, 6, 10, 13, 16, 19, 24, 33, 38, 41, 46, 55, 58, 63, 64, 65, 70, 73, 78, 87, 90, 93, 94,
];

/// The table of these rules with two tokens of lookahead: a word tells them apart at state 0, but not at state 1.
pub fn looking_further_case() -> Result<(), CheckRefusal>
    ensures answer { result ≡ Err (TwoFit 1) }
    ensures verdict { Verdict (file looking_further) result }
{
    answer_of(LOOKING_FURTHER, &LOOKING_FURTHER_STARTS)
}

pub(crate) static ENCLOSING: &[u8; 114] = b"\x01\x01\x02\x02\x03\x08\
    \x02\x20\x01\x21\x01\x02\x20\x02\x21\x02\x02\x21\
    \x03\x03\x01\x04\x1f\x00\x05\x01\x01\x02\x02\x20\x03\x06\x20\x01\x00\x00\x20\x02\x00\x01\
    \x03\x00\x02\x04\x01\x00\x05\x21\x04\x06\x21\x01\x00\x02\
    \x03\x01\x02\x04\x02\x00\x05\x21\x05\x06\x21\x02\x00\x02\
    \x03\x03\x00\x04\x01\x00\x02\x00\x05\x06\
    \x03\x00\x01\x04\x01\x00\x05\x01\x06\x06\
    \x03\x01\x01\x04\x02\x00\x05\x02\x07\x06\
    \x03\x00\x00\x04\x01\x00\x05\x06\
    \x03\x01\x00\x04\x02\x00\x05\x06";

pub(crate) static ENCLOSING_STARTS: [usize; 36] = [
    0, 6, 11, 16, 18, 21, 24, 31, 40, 43, 46, 49, 54, 57, 60, 63, 68, 71, 76, 77, 78, 81, 84, 87,
    88, 91, 94, 97, 98, 101, 104, 105, 106, 109, 112, 113,
];

/// The table of 32 → 1 33 1, 32 → 2 33 2 and 33 → nothing, with one token of lookahead, is accepted.
pub fn enclosing_case() -> Result<(), CheckRefusal>
    ensures answer { result ≡ Ok tt }
    ensures verdict { Verdict (file enclosing) result }
{
    answer_of(ENCLOSING, &ENCLOSING_STARTS)
}

/// The verdicts on the tables, as one list. The function does nothing else than ask for the proof.
#[tactic(auto, using(crate::proofs::Examples::tables_right))]
pub fn tables_stand()
    ensures { Tables }
{}
