//! What comes of a table: it is accepted, or refused.
ghost use Rattle.std.specs.Prelude.{◌≡◌, Some, option_map};
ghost use Rattle.std.specs.Fmt.{DisplaysOnOk};
ghost use Rattle.load.specs.Refusals.{refusal_of};
ghost use Rattle.table.specs.Refusals.{refused};
ghost use Rattle.admission.specs.Texts.{value_of, refusal_text, accepted_text, refused_text, outcome_text};
ghost use Rattle.admission.specs.declared.outcome.Refused.TheVariants.{NotLoaded, NotAccepted};

use frames::Header;
use load::{LoadRefusal, Loaded};
use refusal::Numbered;
use std::fmt;
use table::CheckRefusal;

/// A table that passed: its numbers, and those of its frames and bytes.
#[derive(Clone, Copy)]
pub struct Accepted {
    pub header: Header,
    pub loaded: Loaded,
}

/// Why a table did not pass: its text was not loaded, or the check refused it.
#[derive(Clone, Copy, PartialEq, Eq, Debug)]
pub enum Refused {
    NotLoaded(LoadRefusal),
    NotAccepted(CheckRefusal),
}

/// What is printed of a table, as a line without its end.
#[derive(Clone, Copy)]
pub struct Line {
    pub outcome: Result<Accepted, Refused>,
}

impl From<LoadRefusal> for Refused {
    ghost from_gives = { λ e r. r ≡ NotLoaded e };

    fn from(refusal: LoadRefusal) -> Refused {
        Refused::NotLoaded(refusal)
    }
}

impl From<CheckRefusal> for Refused {
    ghost from_gives = { λ e r. r ≡ NotAccepted e };

    fn from(refusal: CheckRefusal) -> Refused {
        Refused::NotAccepted(refusal)
    }
}

/// The line that is no frame; the other refusals have no number.
// No `Option`: every refusal is printed with a number, and the definition gives 0 for none.
fn line_of(refusal: LoadRefusal) -> usize
    ensures { result ≡ value_of (refusal_of refusal) }
{
    match refusal {
        LoadRefusal::NotAFrame(line) => line,
        LoadRefusal::TextTooLong | LoadRefusal::NoRoom => 0,
    }
}

/// The lowest frame, nonterminal or state that the cause applies to.
fn lowest_of(refusal: CheckRefusal) -> usize
    ensures { result ≡ value_of (refused refusal) }
{
    match refusal {
        CheckRefusal::Frame(frame) => frame,
        CheckRefusal::Unproductive(nonterminal) | CheckRefusal::Unreachable(nonterminal) => {
            nonterminal as usize
        }
        CheckRefusal::Undefined(state)
        | CheckRefusal::EqualToLower(state)
        | CheckRefusal::NotFound(state)
        | CheckRefusal::TwoFit(state)
        | CheckRefusal::Mischosen(state) => state as usize,
    }
}

/// Writes the number of a refusal, the value that is returned with it, and its reason.
fn write_refusal<E: Numbered + fmt::Display, W: fmt::Write>(
    refusal: &E,
    value: usize,
    f: &mut fmt::Formatter<W>,
) -> fmt::Result
    ensures { DisplaysOnOk W.write_str_gives f.old result (option_map (λ reason. refusal_text (E.number refusal.now) value reason) (E.output refusal.now)) f.new }
{
    let number = refusal.number();
    write!(f, "refused {number} {value}: {refusal}")
}

impl fmt::Display for Accepted {
    ghost output = { λ a. Some (accepted_text a.header a.loaded) };

    fn fmt<W: fmt::Write>(&self, f: &mut fmt::Formatter<W>) -> fmt::Result {
        let Header { k, t, n, p, s } = self.header;
        let Loaded { frames, bytes } = self.loaded;
        write!(
            f,
            "accepted k={k} t={t} n={n} p={p} s={s} frames={frames} bytes={bytes}"
        )
    }
}

impl fmt::Display for Refused {
    ghost output = { λ e. Some (refused_text e) };

    fn fmt<W: fmt::Write>(&self, f: &mut fmt::Formatter<W>) -> fmt::Result {
        match self {
            Refused::NotLoaded(refusal) => write_refusal(refusal, line_of(*refusal), f),
            Refused::NotAccepted(refusal) => write_refusal(refusal, lowest_of(*refusal), f),
        }
    }
}

impl fmt::Display for Line {
    ghost output = { λ line. Some (outcome_text line.outcome) };

    fn fmt<W: fmt::Write>(&self, f: &mut fmt::Formatter<W>) -> fmt::Result {
        match &self.outcome {
            Ok(accepted) => accepted.fmt(f),
            Err(refused) => refused.fmt(f),
        }
    }
}
