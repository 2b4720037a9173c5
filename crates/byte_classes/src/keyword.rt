//! The words of a sheet that have a kind of their own.
ghost use Rattle.std.specs.Prelude.{◌≡◌, slice_index};
ghost use Rattle.byte_classes.specs.Keywords.{keyword_of};

/// The words zone, curve, set, from, to and off.
#[derive(Clone, Copy, PartialEq, Eq, Debug)]
pub enum Keyword {
    Zone,
    Curve,
    Set,
    From,
    To,
    Off,
}

/// The letter at an index as the character that it stands for; behind the last, character 0.
fn letter_at(letters: &[u8], index: usize) -> char
    ensures { result ≡ slice_index letters.now index }
{
    char::from(letters.get(index).copied().unwrap_or(0))
}

/// Which of the six words these letters spell, if any.
// The length first: most words are of none that a keyword has.
#[tactic(auto, using(crate::proofs::Letters::long_words))]
#[inline(always)]
pub fn keyword_of(letters: &[u8]) -> Option<Keyword>
    ensures { result ≡ keyword_of letters.now }
{
    let letter = |index: usize| letter_at(letters, index);
    match letters.len() {
        2 => match (letter(0), letter(1)) {
            ('t', 'o') => Some(Keyword::To),
            _ => None,
        },
        3 => match (letter(0), letter(1), letter(2)) {
            ('s', 'e', 't') => Some(Keyword::Set),
            ('o', 'f', 'f') => Some(Keyword::Off),
            _ => None,
        },
        4 => match (letter(0), letter(1), letter(2), letter(3)) {
            ('z', 'o', 'n', 'e') => Some(Keyword::Zone),
            ('f', 'r', 'o', 'm') => Some(Keyword::From),
            _ => None,
        },
        5 => match (letter(0), letter(1), letter(2), letter(3), letter(4)) {
            ('c', 'u', 'r', 'v', 'e') => Some(Keyword::Curve),
            _ => None,
        },
        _ => None,
    }
}
