//! Running a reading.
ghost use Rattle.std.specs.Prelude.{◌≡◌, ◌+◌, ◌^◌, ◌<◌, ◌≤◌, ◌++◌, ℕ, List, length};
ghost use Rattle.reading.specs.declared.answer.Standing.TheVariants.{Running};
ghost use Rattle.reading.specs.Calls.{RunBy};
ghost use Rattle.reading.specs.Run.{rules_of, at_front};

use super::Reading;
use crate::answer::{Move, Ran, ReadRefusal, Standing};
use source::Source;

// Writes the rule that a move announces, if it does, behind those that are written, and says how many there are then.
fn write_rule(list: &mut [u8], rules: u32, made: Move) -> u32
    requires room { rules < length list.old }
    requires few { rules + 1 < 2 ^ 32 }
    ensures rules { result ≡ rules + length (rules_of made) }
    ensures written { (w xs : List ℕ) → length w ≡ rules → list.old ≡ at_front w xs → list.new ≡ at_front (w ++ rules_of made) xs }
{
    match made {
        Move::Announce(rule) => {
            list[rules as usize] = rule;
            rules + 1
        }
        Move::Take(_) | Move::Finish => rules,
    }
}

impl<F> Reading<'_, F> {
    // Makes at most n moves, and writes their rules.
    #[inline(never)]
    fn make_moves<S: Source<Fault = F>>(
        &mut self,
        source: &mut S,
        n: u32,
        list: &mut [u8],
    ) -> Ran<F>
        requires running { self.old.standing ≡ Running }
        requires room { n ≤ length list.old }
        ensures { RunBy self.old (S.Source.meaning source.old) n list.old result self.new (S.Source.meaning source.new) list.new }
    {
        let mut rules = 0;
        for moves in 0..n {
            if let Standing::Over(_) = self.standing {
                return Ran {
                    moves,
                    rules,
                    standing: self.standing,
                    refusal: None,
                };
            }
            match self.step(source) {
                Ok(made) => rules = write_rule(list, rules, made),
                Err(refusal) => return Ran {
                    moves,
                    rules,
                    standing: self.standing,
                    refusal: Some(refusal),
                },
            }
        }
        Ran {
            moves: n,
            rules,
            standing: self.standing,
            refusal: None,
        }
    }

    /// Steps until n moves are made, the reading is over or a step is refused. The rules announced are written to the front of the list, nothing
    /// behind them. A list shorter than n is refused, and so is a run of a reading that is over; then nothing is done.
    pub fn run<S: Source<Fault = F>>(&mut self, source: &mut S, n: u32, list: &mut [u8]) -> Ran<F>
        ensures { RunBy self.old (S.Source.meaning source.old) n list.old result self.new (S.Source.meaning source.new) list.new }
    {
        let refusal = match self.standing {
            Standing::Over(ending) => ReadRefusal::Over(ending),
            Standing::Running if list.len() < n as usize => ReadRefusal::ListTooShort,
            Standing::Running => return self.make_moves(source, n, list),
        };
        Ran {
            moves: 0,
            rules: 0,
            standing: self.standing,
            refusal: Some(refusal),
        }
    }
}
