//! Yes and no: which nonterminals derive some token string.
ghost use Rattle.std.specs.Prelude.{◌≡◌, length};
ghost use Rattle.std.proofs.Common.{rules};
ghost use Rattle.solver.specs.Solution.{LeastOf};
ghost use Rattle.solver.specs.YesKind.{yes_kind, yes_height, TellsProductive};
ghost use Rattle.solver.specs.YesLaws.{yes_laws};

use crate::rounds::solve;
use crate::rule::Rule;
use crate::value::Value;

/// Whether there is a token string.
#[derive(Clone, Copy, PartialEq, Eq)]
pub struct Yes(pub bool);

impl Value for Yes {
    ghost kind = { yes_kind };

    ghost height = { yes_height };

    ghost CHAIN = { 1 };

    ghost laws = { yes_laws };

    const CHAIN: usize = 1;

    fn bottom() -> Yes {
        Yes(false)
    }

    fn unit() -> Yes {
        Yes(true)
    }

    fn of_token(_token: u8) -> Yes {
        Yes(true)
    }

    fn join(self, other: Yes) -> Yes {
        Yes(self.0 | other.0)
    }

    fn times(self, other: Yes) -> Yes {
        Yes(self.0 & other.0)
    }

    ghost equals = { Prim.search rules };
}

/// Says of each nonterminal whether it derives some token string. The values are those of 32, 33 and so on, and what they
/// were before does not count.
pub fn productive(rules: &[Rule<'_>], values: &mut [Yes])
    ensures tells { TellsProductive rules.now values.new }
    ensures as_many { length values.new ≡ length values.old }
{
    solve(rules, values);
    least_tells(rules, values);
}

// A step of the proof, which does nothing: the least solution in yes and no tells what is productive. With the lemma named on
// `productive` in its place, the proof did not close.
fn least_tells(_rules: &[Rule<'_>], _values: &[Yes])
    requires { LeastOf yes_kind _rules.now _values.now }
    ensures { TellsProductive _rules.now _values.now }
{}
