//! The closing line of a reading.
ghost use Rattle.std.specs.Prelude.{Some};
ghost use Rattle.transcript.specs.Lines.{counts_text, values_text, shown_reason, shown_closing};

use reading::{ReadRefusal, View};
use refusal::Numbered;
use source::Faulted;
use std::fmt;

/// What came of a reading: it finished, or was refused; and what it has come to. A line without its end.
#[derive(Clone, Copy)]
pub struct Closing<F> {
    pub outcome: Result<(), ReadRefusal<F>>,
    pub view: View,
}

/// The tokens let in, the rules announced and the moves made.
#[derive(Clone, Copy)]
struct Counts {
    view: View,
}

impl fmt::Display for Counts {
    ghost output = { λ counts. Some (counts_text counts.view) };

    fn fmt<W: fmt::Write>(&self, f: &mut fmt::Formatter<W>) -> fmt::Result {
        let View {
            tokens,
            rules,
            moves,
            ..
        } = self.view;
        write!(f, "tokens={tokens} rules={rules} moves={moves}")
    }
}

/// What is returned with a refusal.
#[derive(Clone, Copy)]
struct Values<'a, F> {
    refusal: &'a ReadRefusal<F>,
}

impl<'a, F: Numbered> fmt::Display for Values<'a, F> {
    ghost output = { λ values. Some (values_text F.Numbered.number values.refusal.now) };

    fn fmt<W: fmt::Write>(&self, f: &mut fmt::Formatter<W>) -> fmt::Result {
        match self.refusal {
            ReadRefusal::Unfit(place) => write!(f, "{place}"),
            ReadRefusal::Source(Faulted { fault, place }) => {
                let number = fault.number();
                write!(f, "{number} {place}")
            }
            ReadRefusal::Over(ending) => {
                let number = ending.number();
                write!(f, "{number}")
            }
            ReadRefusal::StackFull | ReadRefusal::MovesSpent | ReadRefusal::ListTooShort => {
                let nothing = 0u8;
                write!(f, "{nothing}")
            }
        }
    }
}

/// Why a reading was refused, in words.
#[derive(Clone, Copy)]
struct Reason<'a, F> {
    refusal: &'a ReadRefusal<F>,
}

impl<'a, F: fmt::Display> fmt::Display for Reason<'a, F> {
    ghost output = { λ reason. shown_reason F.Display.output reason.refusal.now };

    fn fmt<W: fmt::Write>(&self, f: &mut fmt::Formatter<W>) -> fmt::Result {
        match self.refusal {
            ReadRefusal::Unfit(_) => f.write_str("the token or the end cannot stand here"),
            ReadRefusal::StackFull => f.write_str("the stack would pass 256 states"),
            ReadRefusal::MovesSpent => f.write_str("1,000,000 moves are made"),
            ReadRefusal::Source(faulted) => faulted.fault.fmt(f),
            ReadRefusal::Over(_) => f.write_str("the reading is over"),
            ReadRefusal::ListTooShort => f.write_str(
                "the list is shorter than the moves asked for",
            ),
        }
    }
}

impl<F: Numbered + fmt::Display> fmt::Display for Closing<F> {
    ghost output = { λ closing. shown_closing F.Numbered.number F.Display.output closing.outcome closing.view };

    fn fmt<W: fmt::Write>(&self, f: &mut fmt::Formatter<W>) -> fmt::Result {
        let counts = Counts { view: self.view };
        match &self.outcome {
            Ok(()) => write!(f, "finished {counts}"),
            Err(refusal) => {
                let number = refusal.number();
                let values = Values { refusal };
                let reason = Reason { refusal };
                write!(f, "refused {number} {values} {counts}: {reason}")
            }
        }
    }
}
