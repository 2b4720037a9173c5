//! Filling the window of a reading.
ghost use Rattle.std.specs.Prelude.{◌≡◌, ◌<◌, ◌≤◌, ◌++◌, [], ◌∷◌, ℕ, List, length, MatchResult, OnOk, Decides, MatchBool, Ok, Err};
ghost use Rattle.source.specs.declared.fault.Faulted.{Faulted};
ghost use Rattle.source.specs.Meaning.{Meaning, answer, rest};
ghost use Rattle.grammar.specs.Grammar.{IsToken};
ghost use Rattle.table.specs.LookUps.{BeginsWord};
ghost use Rattle.reading.specs.declared.answer.ReadRefusal.TheVariants.{Source};
ghost use Rattle.reading.specs.declared.answer.Standing.TheVariants.{Running};
ghost use Rattle.reading.specs.declared.reading.Reading.{Reading};
ghost use Rattle.reading.specs.Calls.{Stepped};
ghost use Rattle.reading.specs.Filling.{Enters, Filling};
ghost use Rattle.reading.specs.Given.{symbol_of, symbols_of};
ghost use Rattle.reading.specs.Model.{model, grammar_in, table_in};
ghost use Rattle.reading.specs.Parts.{states, entries};
ghost use Rattle.reading.specs.State.{filled};
ghost use Rattle.reading.specs.Window.{Wants, Full, CanEnter};

use super::Reading;
use crate::answer::{Ending, ReadRefusal};
use crate::window::entries::place_of;
use source::{Entry, Source, Token};

// Asks a source for an entry. Its fault is lifted into the reading's refusal.
#[inline(always)]
fn ask<S: Source>(source: &mut S) -> Result<Entry<Token>, ReadRefusal<S::Fault>>
    ensures asks { S.Source.meaning source.new ≡ rest (S.Source.meaning source.old) }
    ensures gives { MatchResult result
        (λ entry. answer (S.Source.meaning source.old) ≡ Ok entry)
        (λ e. (f : Faulted S.Fault) × ((answer (S.Source.meaning source.old) ≡ Err f) × (e ≡ Source f))) }
{
    Ok(source.next()?)
}

impl<F> Reading<'_, F> {
    // Whether a symbol is one of the grammar's tokens.
    #[inline(always)]
    pub(super) fn is_token(&self, symbol: u8) -> bool
        ensures { Decides result (IsToken (grammar_in self.now) symbol) }
    {
        (1..=self.table.header().t).contains(&symbol)
    }

    // Whether some word of a state begins with the window and an entry behind it.
    #[inline(always)]
    fn begins(&self, state: u8, entry: Entry<Token>) -> bool
        requires wants { Wants (grammar_in self.now) (symbols_of (entries self.now.window)) }
        requires some { 1 ≤ symbol_of entry }
        requires symbol { symbol_of entry < 32 }
        ensures { Decides result (BeginsWord (table_in self.now) state (symbols_of (entries self.now.window) ++ symbol_of entry ∷ [])) }
    {
        let word = self.window.word_with(entry);
        self.begins_word(state, word)
    }

    // Whether an entry can be let in with this state on top.
    #[inline(always)]
    fn can_enter(&self, top: u8, entry: Entry<Token>) -> bool
        requires { Wants (grammar_in self.now) (symbols_of (entries self.now.window)) }
        ensures { Decides result (CanEnter (grammar_in self.now) (table_in self.now) top (symbols_of (entries self.now.window)) entry) }
    {
        match entry {
            Entry::Given(token) => self.is_token(token.kind) && self.begins(top, entry),
            Entry::End(_) => self.begins(top, entry),
        }
    }

    // Whether an entry is wanted: otherwise the window is full.
    #[inline(always)]
    fn wants(&self) -> bool
        ensures { MatchBool result (Wants (grammar_in self.now) (symbols_of (entries self.now.window)))
            (Full (grammar_in self.now) (symbols_of (entries self.now.window))) }
    {
        self.window.wants(self.table.header().k)
    }

    // Lets in an entry that can be.
    #[inline(always)]
    fn let_in(&mut self, entry: Entry<Token>)
        requires wants { Wants (grammar_in self.old) (symbols_of (entries self.old.window)) }
        requires enters { Enters self.old entry }
        ensures table { self.new.table ≡ self.old.table }
        ensures state { model self.new ≡ filled (model self.old) (entry ∷ []) }
    {
        self.window.push(entry);
        if let Entry::Given(_) = entry {
            self.tokens += 1;
        }
    }

    // Asks for an entry and lets it in, with this state on top.
    #[inline(always)]
    fn request<S: Source<Fault = F>>(
        &mut self,
        source: &mut S,
        top: u8,
    ) -> Result<(), ReadRefusal<F>>
        requires wants { Wants (grammar_in self.old) (symbols_of (entries self.old.window)) }
        requires top { (below : List ℕ) × (states self.old.stack ≡ top ∷ below) }
        ensures longer { OnOk result (length (entries self.old.window) < length (entries self.new.window)) }
        ensures fills { (r : Reading F) (m : Meaning F) → Filling r m top self.old (S.Source.meaning source.old)
            → MatchResult result
            (λ _. Filling r m top self.new (S.Source.meaning source.new))
            (λ e. Stepped r m (Err e) self.new (S.Source.meaning source.new)) }
    {
        let entry = match ask(source) {
            Ok(entry) => entry,
            Err(refusal) => {
                self.end(Ending::SourceFault);
                return Err(refusal);
            }
        };
        if !self.can_enter(top, entry) {
            self.end(Ending::Unfit);
            return Err(ReadRefusal::Unfit(place_of(entry)));
        }
        self.let_in(entry);
        Ok(())
    }

    // Requests entries until the window is full.
    #[inline(always)]
    pub(super) fn fill<S: Source<Fault = F>>(
        &mut self,
        source: &mut S,
        top: u8,
    ) -> Result<(), ReadRefusal<F>>
        requires top { (below : List ℕ) × (states self.old.stack ≡ top ∷ below) }
        requires running { self.old.standing ≡ Running }
        requires moves { self.old.moves < 1000000 }
        ensures full { OnOk result (Full (grammar_in self.new) (symbols_of (entries self.new.window))) }
        ensures fills { MatchResult result
            (λ _. Filling self.old (S.Source.meaning source.old) top self.new (S.Source.meaning source.new))
            (λ e. Stepped self.old (S.Source.meaning source.old) (Err e) self.new (S.Source.meaning source.new)) }
    {
        // with one symbol of lookahead one entry is enough, and needs no loop
        if self.table.header().k == 1 {
            if self.wants() {
                return self.request(source, top);
            }
            return Ok(());
        }
        while self.wants() {
            self.request(source, top)?;
        }
        Ok(())
    }
}
