//! The classes of bytes.
ghost use Rattle.std.specs.Prelude.{◌≡◌};
ghost use Rattle.byte_classes.specs.Classes.{class_of};

/// The marks between words and numbers.
#[derive(Clone, Copy, PartialEq, Eq, Debug)]
pub enum Mark {
    Colon,
    Equals,
    Comma,
    Semicolon,
    Minus,
}

/// What a byte can be to a scanner. `Other` is for the bytes of no class.
#[derive(Clone, Copy, PartialEq, Eq, Debug)]
pub enum Class {
    Letter,
    Digit,
    Blank,
    LineEnd,
    Mark(Mark),
    Quote,
    Hash,
    Other,
}

/// The class of a byte by the character that it stands for: where a byte is tested for one class, this costs no look-up.
pub fn class_of_character(byte: u8) -> Class
    ensures { result ≡ class_of byte }
{
    match char::from(byte) {
        'a'..='z' => Class::Letter,
        '0'..='9' => Class::Digit,
        ' ' | '\t' => Class::Blank,
        '\n' => Class::LineEnd,
        ':' => Class::Mark(Mark::Colon),
        '=' => Class::Mark(Mark::Equals),
        ',' => Class::Mark(Mark::Comma),
        ';' => Class::Mark(Mark::Semicolon),
        '-' => Class::Mark(Mark::Minus),
        '"' => Class::Quote,
        '#' => Class::Hash,
        _ => Class::Other,
    }
}
