//! Why a text is not loaded.
ghost use Rattle.std.specs.Prelude.{Some};
ghost use Rattle.load.specs.Refusals.{refusal_of, reason_of};

use refusal::Numbered;
use std::fmt;

/// The text has more than 1,048,576 bytes; a line of it, counted from 1, is no frame; or its frames do not fit the
/// store, or the list of starts.
#[derive(Clone, Copy, PartialEq, Eq, Debug)]
pub enum LoadRefusal {
    TextTooLong,
    NotAFrame(usize),
    NoRoom,
}

impl Numbered for LoadRefusal {
    ghost number = { λ e. (refusal_of e).number };

    fn number_of(refusal: Option<&LoadRefusal>) -> Option<u8> {
        refusal.map(|refusal| match refusal {
            LoadRefusal::TextTooLong => 1,
            LoadRefusal::NotAFrame(_) => 2,
            LoadRefusal::NoRoom => 3,
        })
    }
}

// The reason in words.
impl fmt::Display for LoadRefusal {
    ghost output = { λ e. Some (reason_of e) };

    fn fmt<W: fmt::Write>(&self, f: &mut fmt::Formatter<W>) -> fmt::Result {
        f.write_str(match self {
            LoadRefusal::TextTooLong => "the text has over 1048576 bytes",
            LoadRefusal::NotAFrame(_) => "the line is no frame",
            LoadRefusal::NoRoom => "the store or the list of starts is too short",
        })
    }
}
