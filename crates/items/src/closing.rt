//! The nonterminals that stand before a dot of the closure of a set. The solver finds them, along seeds and links.
ghost use Rattle.std.specs.Prelude.{◌≡◌, ℕ, ◌-◌, ◌/◌, ◌%◌, ◌<◌, cond, [], None, length, nat_lt};
ghost use Rattle.std.proofs.Math.Option.{some};
ghost use Rattle.grammar.specs.Grammar.{rule_at};
ghost use Rattle.solver.specs.Solution.{rule_of, rules_of};
ghost use Rattle.items.specs.Actives.{Active};
ghost use Rattle.items.specs.Symbols.{entry_at, right_side};
ghost use Rattle.items.specs.Closures.{no_link, rule_to, seed_at, last_link, last_at, link_at};

use crate::place::{PLACES, Place};
use crate::places::Places;
use crate::right_sides::symbol_before;
use solver::{Rule, Yes, solve};
use std::slice::from_ref;

/// No seed and no link.
pub fn no_link() -> Rule<'static>
    ensures { rule_of result ≡ no_link }
{
    Rule {
        left: 0,
        right: &[],
    }
}

/// A rule with a symbol on its left, if there is one: a seed with nothing on its right, a link with one symbol there.
pub fn link(right: &[u8], symbol: Option<u8>) -> Rule<'_>
    ensures { rule_of result ≡ rule_to right.now symbol }
{
    match symbol {
        Some(left) => Rule { left, right },
        None => no_link(),
    }
}

// The symbol just before the dot of a place, by its number, is a seed. Not inlined: the loop over all numbers would divide each
// of them, and nearly all are of places that no seed is made for.
#[inline(never)]
fn seed(rules: &[Rule], j: usize) -> Rule<'static>
    requires { j < 427 }
    ensures { rule_of result ≡ rule_to [] (cond (nat_lt 0 (j % 7)) (entry_at (right_side rules.now (j / 7)) (j % 7 - 1)) None) }
{
    link(&[], symbol_before(rules, Place::numbered(j)))
}

// The seed of a place, by its number, if the set has it. Rules and places stay two parameters here: they become one value, a
// closure, once its marks are found.
fn seed_at(rules: &[Rule], places: &Places, j: usize) -> Rule<'static>
    requires { j < 427 }
    ensures { rule_of result ≡ seed_at rules.now places.now (j / 7) (j % 7) }
{
    if places.has_number(j) {
        seed(rules, j)
    } else {
        no_link()
    }
}

// The last symbol of a right side is linked to the left side.
fn last_link<'a>(rule: &'a Rule<'a>) -> Rule<'a>
    ensures { rule_of result ≡ last_link rule.now }
{
    link(from_ref(&rule.left), rule.right.last().copied())
}

fn last_at<'a>(rules: &'a [Rule<'a>], rule: usize) -> Rule<'a>
    ensures { rule_of result ≡ last_at rules.now rule }
{
    rules.get(rule).map_or(no_link(), last_link)
}

fn link_at<'a>(rules: &'a [Rule<'a>], places: &Places, j: usize) -> Rule<'a>
    ensures { rule_of result ≡ link_at rules.now places.now j }
{
    if j < PLACES {
        seed_at(rules, places, j)
    } else {
        last_at(rules, j - PLACES)
    }
}

// Writes all seeds, place by place, and then all links. They are not returned: so long an array may be copied on its way.
fn write_links<'a>(rules: &'a [Rule<'a>], places: &Places, links: &mut [Rule<'a>; 487])
    ensures long { length links.new ≡ 487 }
    ensures each { (j : ℕ) → j < 487 → rule_at (rules_of links.new) j ≡ some (link_at rules.now places.now j) }
{
    for (j, found) in links.iter_mut().enumerate() {
        *found = link_at(rules, places, j);
    }
}

/// Which nonterminals stand before a dot of the closure of a set.
pub fn active(rules: &[Rule<'_>], places: &Places) -> [Yes; 24]
    ensures { Active rules.now places.now result }
{
    let mut links = [no_link(); 487];
    write_links(rules, places, &mut links);
    let mut marks = [Yes(false); 24];
    solve(&links, &mut marks);
    marks
}
