//! Whether the states of a table and their successors are as defined.
ghost use Rattle.std.specs.Prelude.{◌≡◌, take, Decides};
ghost use Rattle.grammar.specs.Table.{StartAsDefined, SuccessorsAsDefined, StateAsDefined};
ghost use Rattle.grammar.specs.Equations.{value};
ghost use Rattle.solver.specs.Solution.{valuation};
ghost use Rattle.words.specs.Sets.{word_kind};
ghost use Rattle.items.specs.Actives.{NextOf};
ghost use Rattle.table.specs.Contents.{grammar_of, table_of};
ghost use Rattle.table.specs.Rows.{SuccessorsOnce, StateGood};
ghost use Rattle.table.specs.States.{file, Firsts, IsState, SuccessorDefined};

use super::At;
use crate::lookup::{named_once, successor_of};
use crate::state::State;
use frames::Section;
use items::{Closure, Places};
use lookahead::{first_of, words_of};
use solver::Value;
use symbols::END_MARK;
use words::Words;

/// The number behind the last nonterminal.
const SYMBOLS: u8 = 56;

// The next of a state by a symbol: its places, if there are any, and its words.
fn next_state<const K: usize>(
    sets: &[Words<K>],
    closure: &Closure<'_>,
    words: Words<K>,
    symbol: u8,
) -> State<K>
    ensures places { NextOf closure.now.rules.now closure.now.places.now symbol result.places }
    ensures words { result.words ≡ (word_kind K).product (value (word_kind K) (valuation (word_kind K) sets.now) symbol) words.entry }
{
    State {
        places: closure.successor(symbol),
        words: first_of(sets, symbol).times(words),
    }
}

impl<const K: usize> At<'_, K> {
    // Whether the state has a successor by a symbol just when the symbol has a next, and the successor is that next.
    fn symbol_defined(
        &self,
        sets: &[Words<K>],
        here: &State<K>,
        closure: &Closure<'_>,
        symbol: u8,
    ) -> bool
        requires firsts { Firsts K (file self.now.draft.now) sets.now }
        requires here { IsState (file self.now.draft.now) self.now.q here.now }
        requires rules { closure.now.rules.now ≡ take self.now.draft.now.header.p self.now.draft.now.rules }
        requires places { closure.now.places.now ≡ here.now.places }
        ensures { Decides result (SuccessorDefined (file self.now.draft.now) self.now.q symbol) }
    {
        let next = next_state(sets, closure, here.words, symbol);
        match successor_of(self.draft.frames, self.q, symbol) {
            None => next.places.is_empty(),
            Some(q) => {
                let there = At {
                    draft: self.draft,
                    q,
                };
                next == there.read()
            }
        }
    }

    // Whether the successors by all symbols are as defined.
    fn successors_defined(&self, sets: &[Words<K>]) -> bool
        requires { Firsts K (file self.now.draft.now) sets.now }
        ensures { Decides result (SuccessorsAsDefined (grammar_of (file self.now.draft.now)) (table_of (file self.now.draft.now)) self.now.q) }
    {
        let here = self.read();
        let closure = Closure::new(self.draft.rules(), &here.places);
        for symbol in 1..SYMBOLS {
            if !self.symbol_defined(sets, &here, &closure, symbol) {
                return false;
            }
        }
        true
    }

    // Whether the state, which is state 0, has the start rule with the dot before the end mark, and the end mark as its one
    // word.
    fn start_defined(&self) -> bool
        requires { self.now.q ≡ 0 }
        ensures { Decides result (StartAsDefined (grammar_of (file self.now.draft.now)) (table_of (file self.now.draft.now))) }
    {
        let start: State<K> = State {
            places: Places::of_pairs(&[self.draft.header.p, 1]),
            words: words_of(&[END_MARK, 0]),
        };
        start == self.read()
    }

    // Whether the state is as state 0 is defined, if it is state 0.
    fn start_good(&self) -> bool
        ensures { Decides result (self.now.q ≡ 0 → StartAsDefined (grammar_of (file self.now.draft.now)) (table_of (file self.now.draft.now))) }
    {
        if self.q == 0 {
            self.start_defined()
        } else {
            true
        }
    }

    // Whether the list of successors names each symbol once.
    fn successors_once(&self) -> bool
        ensures { Decides result (SuccessorsOnce (file self.now.draft.now) self.now.q) }
    {
        named_once(self.draft.frames.section(self.q, Section::Successors))
    }

    /// Whether the state and its successors are as defined, each symbol named once.
    // That the sets are FIRST stays a clause: it is told by derivations, of which there may be several, and a ghost field takes
    // only a fact of one proof.
    pub fn is_good(&self, sets: &[Words<K>]) -> bool
        requires { Firsts K (file self.now.draft.now) sets.now }
        ensures { Decides result (StateGood (file self.now.draft.now) self.now.q) }
    {
        self.successors_once() && (self.start_good() && self.successors_defined(sets))
    }
}
