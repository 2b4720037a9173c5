//! How a closure is made, and the kernels of its successors.
ghost use Rattle.std.specs.Prelude.{◌≡◌, ℕ, ◌/◌, ◌%◌, ◌<◌, false, None, ◌&&◌, length, slice_index_or, ◌==◌};
ghost use Rattle.items.specs.Actives.{NextOf};
ghost use Rattle.items.specs.Nexts.{marked, brought_in, in_closure, moved_by, next_has};

use super::Closure;
use crate::closing::active;
use crate::place::Place;
use crate::places::Places;
use crate::right_sides::symbol_behind;
use solver::{Rule, Yes};
use symbols::nonterminal_index;

// A set of places and the marks of nonterminals whose rules come in with the dot at their end.
#[derive(Clone, Copy)]
struct Marked<'a> {
    rules: &'a [Rule<'a>],
    places: &'a Places,
    marks: [Yes; 24],
}

impl Marked<'_> {
    // Whether a symbol is a marked nonterminal.
    fn is_marked(&self, symbol: u8) -> bool
        ensures { result ≡ marked self.now.marks symbol }
    {
        // a `match` here and below: the proofs of `is_some_and` did not close
        match nonterminal_index(symbol) {
            Some(at) => self.marks.get(at).copied().unwrap_or(Yes(false)).0,
            None => false,
        }
    }

    // Whether a rule is one of a marked nonterminal, and the dot its end.
    fn ends_marked(&self, rule: &Rule<'_>, dot: u8) -> bool
        ensures { result ≡ (length rule.now.right.now == dot && marked self.now.marks rule.now.left) }
    {
        rule.right.len() == dot as usize && self.is_marked(rule.left)
    }

    // Whether a rule comes in with the dot at its end.
    fn brings_in(&self, place: Place) -> bool
        ensures { result ≡ brought_in self.now.rules.now self.now.marks place.rule place.dot }
    {
        match self.rules.get(place.rule as usize) {
            Some(rule) => self.ends_marked(rule, place.dot),
            None => false,
        }
    }

    fn has(&self, place: Place) -> bool
        ensures { result ≡ in_closure self.now.rules.now self.now.places.now self.now.marks place.rule place.dot }
    {
        self.places.contains(place) || self.brings_in(place)
    }

    // The symbol before the dot one higher, if the closure has the place with that dot.
    fn moved_by(&self, place: Place) -> Option<u8>
        requires { place.dot < 255 }
        ensures { result ≡ moved_by self.now.rules.now self.now.places.now self.now.marks place.rule place.dot }
    {
        let raised = Place {
            dot: place.dot + 1,
            ..place
        };
        if self.has(raised) {
            symbol_behind(self.rules, place)
        } else {
            None
        }
    }

    // The symbol by which each place is one of a successor.
    fn moves(&self) -> [Option<u8>; 427]
        ensures { (j : ℕ) → j < 427 → slice_index_or result j None ≡ moved_by self.now.rules.now self.now.places.now self.now.marks (j / 7) (j % 7) }
    {
        std::array::from_fn(|j| self.moved_by(Place::numbered(j)))
    }
}

impl<'a> Closure<'a> {
    /// The closure of a set.
    pub fn new(rules: &'a [Rule<'a>], places: &'a Places) -> Closure<'a>
        ensures rules { result.rules.now ≡ rules.now }
        ensures places { result.places.now ≡ places.now }
    {
        let marked = Marked {
            rules,
            places,
            marks: active(rules, places),
        };
        Closure {
            rules,
            places,
            marks: marked.marks,
            moves: marked.moves(),
        }
    }

    // Whether a place, by its number, is one of the successor by a symbol.
    fn leads_to(&self, symbol: u8, j: usize) -> bool
        requires { j < 427 }
        ensures { result ≡ next_has self.now.rules.now self.now.places.now self.now.marks symbol (j / 7) (j % 7) }
    {
        let by = self.moves[j];
        by == Some(symbol)
    }

    // The places of a successor, each at its number.
    fn successor_marks(&self, symbol: u8) -> [bool; 427]
        ensures { (j : ℕ) → j < 427 → slice_index_or result j false ≡ next_has self.now.rules.now self.now.places.now self.now.marks symbol (j / 7) (j % 7) }
    {
        std::array::from_fn(|j| self.leads_to(symbol, j))
    }

    /// The kernel of the successor by a symbol.
    pub fn successor(&self, symbol: u8) -> Places
        ensures { NextOf self.now.rules.now self.now.places.now symbol result }
    {
        Places::of_marks(self.successor_marks(symbol))
    }
}
