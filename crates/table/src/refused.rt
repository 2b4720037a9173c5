//! Why a table is refused.
ghost use Rattle.std.specs.Prelude.{◌≡◌, Some};
ghost use Rattle.table.specs.Refusals.{refused, reason_of};

use refusal::Numbered;
use std::fmt;

/// The cause, with the lowest frame, nonterminal or state that it applies to.
#[derive(Clone, Copy, PartialEq, Eq, Debug)]
pub enum CheckRefusal {
    /// This frame, from 0, is not as it should be, or one of the two numbers is beyond its memory.
    Frame(usize),
    /// This nonterminal derives no token string.
    Unproductive(u8),
    /// This nonterminal is in no string derived from the start symbol.
    Unreachable(u8),
    /// This state or its list of successors is not as defined.
    Undefined(u8),
    /// This state is equal to a lower one.
    EqualToLower(u8),
    /// This state after 0 is no successor of a lower one.
    NotFound(u8),
    /// At this state two rules fit one word.
    TwoFit(u8),
    /// At this state the choices are not as defined.
    Mischosen(u8),
}

impl Numbered for CheckRefusal {
    ghost number = { λ e. (refused e).number };

    fn number_of(refusal: Option<&CheckRefusal>) -> Option<u8> {
        refusal.map(|refusal| match refusal {
            CheckRefusal::Frame(_) => 4,
            CheckRefusal::Unproductive(_) => 5,
            CheckRefusal::Unreachable(_) => 6,
            CheckRefusal::Undefined(_) => 7,
            CheckRefusal::EqualToLower(_) => 8,
            CheckRefusal::NotFound(_) => 9,
            CheckRefusal::TwoFit(_) => 10,
            CheckRefusal::Mischosen(_) => 11,
        })
    }
}

impl fmt::Display for CheckRefusal {
    ghost output = { λ e. Some (reason_of e) };

    fn fmt<W: fmt::Write>(&self, f: &mut fmt::Formatter<W>) -> fmt::Result {
        f.write_str(match self {
            CheckRefusal::Frame(_) => "the frame is not as defined",
            CheckRefusal::Unproductive(_) => "the nonterminal derives no token string",
            CheckRefusal::Unreachable(_) => "the nonterminal is in no string from the start",
            CheckRefusal::Undefined(_) => "the state or its successors are not as defined",
            CheckRefusal::EqualToLower(_) => "the state is equal to a lower one",
            CheckRefusal::NotFound(_) => "the state is no successor of a lower one",
            CheckRefusal::TwoFit(_) => "two rules fit one word",
            CheckRefusal::Mischosen(_) => "the choices are not as defined",
        })
    }
}
