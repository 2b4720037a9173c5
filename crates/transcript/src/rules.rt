//! The rules that a run announced, one behind the other.
ghost use Rattle.std.specs.Prelude.{Some};
ghost use Rattle.std.specs.Fmt.{WritesOnOk};
ghost use Rattle.std.specs.List.{flat_map};
ghost use Rattle.transcript.specs.Lines.{spaced, rules_text};

use std::fmt;

/// Rules as decimal numbers, each with a blank behind it. Of more than 1,000 only `...` and a blank is printed.
#[derive(Clone, Copy)]
pub struct Rules<'a> {
    pub rules: &'a [u8],
}

// The most rules that are printed one by one.
const MOST_PRINTED: usize = 1_000;

fn write_each<W: fmt::Write>(rules: &[u8], f: &mut fmt::Formatter<W>) -> fmt::Result
    ensures { WritesOnOk W.Write.write_str_gives f.old result (flat_map spaced rules.now) f.new }
{
    for rule in rules {
        write!(f, "{rule} ")?;
    }
    Ok(())
}

impl<'a> fmt::Display for Rules<'a> {
    ghost output = { λ s. Some (rules_text s.rules.now) };

    fn fmt<W: fmt::Write>(&self, f: &mut fmt::Formatter<W>) -> fmt::Result {
        if self.rules.len() > MOST_PRINTED {
            f.write_str("... ")
        } else {
            write_each(self.rules, f)
        }
    }
}
