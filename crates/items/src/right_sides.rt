//! The right sides of rules, with the start rule behind the last, and their symbols by number.
ghost use Rattle.std.specs.Prelude.{◌≡◌, ◌-◌, cond, None, nat_lt};
ghost use Rattle.items.specs.Symbols.{right_side, entry_at};

use crate::place::Place;
use solver::Rule;
use symbols::START_RIGHT;

/// The right side of a rule; behind the last rule comes the start rule, and then nothing.
pub fn right_side<'a>(rules: &[Rule<'a>], rule: u8) -> &'a [u8]
    ensures { result.now ≡ right_side rules.now rule }
{
    let r = rule as usize;
    match rules.get(r) {
        Some(found) => found.right,
        None if r == rules.len() => &START_RIGHT,
        None => &[],
    }
}

/// The symbol at a place of the right side of a rule, from 0.
// The rules and the place stay two parameters: a struct of both would be made for each place anew.
pub fn symbol_behind(rules: &[Rule], place: Place) -> Option<u8>
    ensures { result ≡ entry_at (right_side rules.now place.rule) place.dot }
{
    right_side(rules, place.rule)
        .get(place.dot as usize)
        .copied()
}

/// The symbol just before the dot of a place.
pub fn symbol_before(rules: &[Rule], place: Place) -> Option<u8>
    ensures { result ≡ cond (nat_lt 0 place.dot) (entry_at (right_side rules.now place.rule) (place.dot - 1)) None }
{
    let dot = place.dot.checked_sub(1)?;
    symbol_behind(rules, Place { dot, ..place })
}
