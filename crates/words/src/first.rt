//! FIRST of each nonterminal.
ghost use Rattle.std.specs.Prelude.{◌≡◌, length};
ghost use Rattle.solver.specs.Solution.{LeastOf};
ghost use Rattle.words.specs.Sets.{word_kind};
ghost use Rattle.words.specs.Theorems.{AreFirst};

use crate::set::Words;
use solver::{Rule, solve};

/// FIRST of each nonterminal: the token strings that it derives, each cut to its first K tokens. The sets are those of 32,
/// 33 and so on, and what they were before does not count.
pub fn first_sets<const K: usize>(rules: &[Rule<'_>], sets: &mut [Words<K>])
    ensures first { AreFirst K rules.now sets.new }
    ensures as_many { length sets.new ≡ length sets.old }
{
    solve(rules, sets);
    least_are_first(rules, sets);
}

// A step of the proof, which does nothing: the least solution in sets of words is FIRST. With the lemma named
// on `first_sets` in its place, the proof did not close.
fn least_are_first<const K: usize>(_rules: &[Rule<'_>], _sets: &[Words<K>])
    requires { LeastOf (word_kind K) _rules.now _sets.now }
    ensures { AreFirst K _rules.now _sets.now }
{}
