//! What the calls of a reading answer.
ghost use Rattle.std.specs.Prelude.{◌≡◌};
ghost use Rattle.reading.specs.declared.answer.ReadRefusal.TheVariants.{Source};
ghost use Rattle.reading.specs.Refusals.{ending_number, read_number};

use refusal::Numbered;
use source::{Faulted, Place, Token};

/// How a reading ended.
#[derive(Clone, Copy, PartialEq, Eq, Debug)]
pub enum Ending {
    Finished,
    /// A token or the end could not be let in.
    Unfit,
    /// The stack would have passed 256 states.
    StackFull,
    /// 1,000,000 moves were made.
    MovesSpent,
    /// The source had a fault.
    SourceFault,
}

/// Where a reading stands.
#[derive(Clone, Copy, PartialEq, Eq, Debug)]
pub enum Standing {
    Running,
    Over(Ending),
}

/// A move of a reading.
#[derive(Clone, Copy, PartialEq, Eq, Debug)]
pub enum Move {
    /// This rule is announced.
    Announce(u8),
    /// This token is taken.
    Take(Token),
    /// The reading finishes.
    Finish,
}

/// Why a step makes no move, or a run ends.
#[derive(Clone, Copy, PartialEq, Eq, Debug)]
pub enum ReadRefusal<F> {
    /// The token or the end at this place cannot be let in.
    Unfit(Place),
    /// The stack would pass 256 states.
    StackFull,
    /// 1,000,000 moves have been made.
    MovesSpent,
    /// The source has a fault.
    Source(Faulted<F>),
    /// The reading is over.
    Over(Ending),
    /// The list for a run's rules is shorter than the moves asked for.
    ListTooShort,
}

impl<F> From<Faulted<F>> for ReadRefusal<F> {
    ghost from_gives = { λ f r. r ≡ Source f };

    fn from(faulted: Faulted<F>) -> ReadRefusal<F> {
        ReadRefusal::Source(faulted)
    }
}

impl Numbered for Ending {
    ghost number = { ending_number };

    fn number_of(ending: Option<&Ending>) -> Option<u8> {
        ending.map(|ending| match ending {
            Ending::Finished => 0,
            Ending::Unfit => 12,
            Ending::StackFull => 13,
            Ending::MovesSpent => 14,
            Ending::SourceFault => 15,
        })
    }
}

impl<F> Numbered for ReadRefusal<F> {
    ghost number = { read_number };

    fn number_of(refusal: Option<&ReadRefusal<F>>) -> Option<u8> {
        refusal.map(|refusal| match refusal {
            ReadRefusal::Unfit(_) => 12,
            ReadRefusal::StackFull => 13,
            ReadRefusal::MovesSpent => 14,
            ReadRefusal::Source(_) => 15,
            ReadRefusal::Over(_) => 16,
            ReadRefusal::ListTooShort => 17,
        })
    }
}

/// What a run came to: the moves it made, the rules it wrote, where the reading stands, and why it ended early, if it was refused.
#[derive(Clone, Copy, PartialEq, Eq, Debug)]
pub struct Ran<F> {
    pub moves: u32,
    pub rules: u32,
    pub standing: Standing,
    pub refusal: Option<ReadRefusal<F>>,
}

/// Where a reading stands, and what it has come to since its opening: the tokens let in, the rules announced and the moves made.
#[derive(Clone, Copy, PartialEq, Eq, Debug)]
pub struct View {
    pub standing: Standing,
    pub tokens: u32,
    pub rules: u32,
    pub moves: u32,
}

/// What the reading of a whole sheet came to, and why it was refused, if it was.
#[derive(Clone, Copy, PartialEq, Eq, Debug)]
pub struct Sheet<F> {
    pub view: View,
    pub refusal: Option<ReadRefusal<F>>,
}
