//! A draft read from the frames.
ghost use Rattle.std.specs.Prelude.{◌≡◌, ℕ, ◌<◌, length, take};
ghost use Rattle.std.proofs.Math.Option.{some};
ghost use Rattle.grammar.specs.Grammar.{rule_at};
ghost use Rattle.solver.specs.Solution.{rule_of, rules_of};
ghost use Rattle.frames.specs.Raw.{header_of};
ghost use Rattle.frames.specs.Views.{raw};
ghost use Rattle.table.specs.Contents.{rule_in};
ghost use Rattle.table.specs.Drafts.{Formed};

use super::Draft;
use frames::Frames;
use solver::Rule;

// The rule with a number. Behind the last there is nothing of use.
fn read_rule<'a>(frames: Frames<'a>, r: u8) -> Rule<'a>
    ensures { r < (header_of (raw frames.entry)).p → rule_of result ≡ rule_in (raw frames.entry) r }
{
    Rule {
        left: frames.left(r),
        right: frames.right(r),
    }
}

fn read_rules<'a>(frames: Frames<'a>) -> [Rule<'a>; 60]
    ensures many { length result ≡ 60 }
    ensures each { (r : ℕ) → r < 60 → r < (header_of (raw frames.entry)).p → rule_at (rules_of result) r ≡ some (rule_in (raw frames.entry) r) }
{
    std::array::from_fn(|r| read_rule(frames, r as u8))
}

impl<'a> Draft<'a> {
    /// Reads the numbers and the rules.
    pub fn new(frames: Frames<'a>) -> Draft<'a>
        requires { Formed (raw frames) }
        ensures { raw result.frames ≡ raw frames.entry }
    {
        Draft {
            frames,
            header: frames.header(),
            rules: read_rules(frames),
        }
    }

    /// The rules of the table.
    pub fn rules(&self) -> &[Rule<'a>]
        ensures { result.now ≡ take self.now.header.p self.now.rules }
    {
        &self.rules[0..self.header.p as usize]
    }
}
