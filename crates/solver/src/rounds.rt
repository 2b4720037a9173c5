//! Rounds over the rules, until one changes nothing.
ghost use Rattle.std.specs.Prelude.{◌≡◌, ◌<◌, length, MatchBool, sum_by, ◌≢◌, slice_index_or, slice_set};
ghost use Rattle.grammar.specs.Equations.{value, product_of};
ghost use Rattle.solver.specs.Solution.{rule_of, valuation, LeastOf};
ghost use Rattle.solver.specs.Rounds.{with_rule, AllBottom, RisingTo, Settled};

use crate::rule::Rule;
use crate::value::Value;
use symbols::{START, nonterminal_index};

/// The value of a token or a nonterminal, where the values are those of 32, 33 and so on. A nonterminal beyond the list is
/// at bottom.
pub fn symbol_value<V: Value>(symbol: u8, values: &[V]) -> V
    ensures { result ≡ value V.kind (valuation V.kind values.now) symbol }
{
    // no `copied` and `unwrap_or`: a large value would be copied once more, and bottom made even where there is a value
    let Some(at) = nonterminal_index(symbol) else {
        return V::of_token(symbol);
    };
    match values.get(at) {
        Some(value) => *value,
        None => V::bottom(),
    }
}

// The product of the values on the right of a rule.
fn product<V: Value>(rule: &Rule<'_>, values: &[V]) -> V
    ensures { result ≡ product_of V.kind (valuation V.kind values.now) (rule_of rule.now).right }
{
    let mut found = V::unit();
    for symbol in rule.right {
        found = found.times(symbol_value(*symbol, values));
    }
    found
}

// Joins a value to one of the list, and says whether that changed it.
fn raise<V: Value>(values: &mut [V], at: usize, by: V) -> bool
    requires { at < length values.old }
    ensures writes { values.new ≡ slice_set values.old at (V.kind.join (slice_index_or values.old at V.kind.bottom) by) }
    ensures says { MatchBool result (values.new ≢ values.old) (values.new ≡ values.old) }
{
    let old = values[at];
    let new = old.join(by);
    if new == old {
        return false;
    }
    values[at] = new;
    true
}

// Applies one rule, and says whether a value changed. A rule of no nonterminal of the list changes nothing.
fn apply<V: Value>(rule: &Rule<'_>, values: &mut [V]) -> bool
    ensures writes { values.new ≡ with_rule V.kind rule.now values.old }
    ensures says { MatchBool result (values.new ≢ values.old) (values.new ≡ values.old) }
{
    // many of the rules that are handed in may be of no nonterminal: with this test first, each of them costs one branch
    if rule.left < START {
        return false;
    }
    match nonterminal_index(rule.left) {
        Some(at) if at < values.len() => {
            let by = product(rule, values);
            raise(values, at, by)
        }
        _ => false,
    }
}

// Applies each rule once, and says whether a value changed. If one did, the values are higher in sum.
// Not inlined: as one loop with the rounds, it would ask at each rule whether another round follows.
#[inline(never)]
fn round<V: Value>(rules: &[Rule<'_>], values: &mut [V]) -> bool
    requires { RisingTo V.kind rules.now values.old }
    ensures rising { RisingTo V.kind rules.now values.new }
    ensures says { MatchBool result (sum_by V.height values.old < sum_by V.height values.new) (Settled V.kind rules.now values.new) }
{
    let mut changed = false;
    for rule in rules {
        // `|` does not branch, so the proof has one way
        changed = apply(rule, values) | changed;
    }
    changed
}

// Not by `fill`, which asks for a clone that cannot fail: `Copy` does not say it.
fn clear<V: Value>(values: &mut [V])
    ensures { AllBottom V.kind values.new }
{
    for value in values.iter_mut() {
        *value = V::bottom();
    }
}

/// Solves the equations of the rules: leaves the least solution in the values, which are those of 32, 33 and so on. What
/// they were before does not count. It ends since each round but the last makes some value higher.
pub fn solve<V: Value>(rules: &[Rule<'_>], values: &mut [V])
    ensures least { LeastOf V.kind rules.now values.new }
    ensures as_many { length values.new ≡ length values.old }
{
    clear(values);
    while round(rules, values) {}
}
