//! Which nonterminals are reachable. The solver finds them, along links from left sides to what stands on the right.
ghost use Rattle.std.specs.Prelude.{◌≡◌, ℕ, ◌<◌, length};
ghost use Rattle.std.proofs.Math.Option.{some};
ghost use Rattle.grammar.specs.Grammar.{rule_at};
ghost use Rattle.solver.specs.Solution.{rule_of, rules_of};
ghost use Rattle.items.specs.Reaching.{symbol_link, symbol_link_at, reach_at, Reaches};

use crate::closing::{link, no_link};
use solver::{Rule, Yes, solve};
use std::slice::from_ref;
use symbols::START;

/// How many places the right sides of 60 rules may have.
const SYMBOLS: usize = 360;

fn symbol_link<'a>(rule: &'a Rule<'a>, at: usize) -> Rule<'a>
    ensures { rule_of result ≡ symbol_link rule.now at }
{
    link(from_ref(&rule.left), rule.right.get(at).copied())
}

fn symbol_link_at<'a>(rules: &'a [Rule<'a>], rule: usize, at: usize) -> Rule<'a>
    ensures { rule_of result ≡ symbol_link_at rules.now rule at }
{
    rules
        .get(rule)
        .map_or(no_link(), |rule| symbol_link(rule, at))
}

fn reach_at<'a>(rules: &'a [Rule<'a>], j: usize) -> Rule<'a>
    ensures { rule_of result ≡ reach_at rules.now j }
{
    if j < SYMBOLS {
        symbol_link_at(rules, j / 6, j % 6)
    } else {
        link(&[], Some(START))
    }
}

// Writes all links, and the start symbol as the one seed. They are not returned: so long an array may be copied on its way.
fn write_reach_links<'a>(rules: &'a [Rule<'a>], links: &mut [Rule<'a>; 361])
    ensures long { length links.new ≡ 361 }
    ensures each { (j : ℕ) → j < 361 → rule_at (rules_of links.new) j ≡ some (reach_at rules.now j) }
{
    for (j, found) in links.iter_mut().enumerate() {
        *found = reach_at(rules, j);
    }
}

/// Which nonterminals occur in a string derived from the start symbol.
// Ends as `active` does: one function of both would be handed links, and could say nothing of what they mean.
pub fn reachable(rules: &[Rule<'_>]) -> [Yes; 24]
    ensures { Reaches rules.now result }
{
    let mut links = [no_link(); 361];
    write_reach_links(rules, &mut links);
    let mut marks = [Yes(false); 24];
    solve(&links, &mut marks);
    marks
}
