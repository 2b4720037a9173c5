//! The rows of the states.
ghost use Rattle.std.specs.Prelude.{ℕ, ◌<◌, [], ◌∷◌, Decides};
ghost use Rattle.grammar.specs.Table.{EqualToLower, NotFound, TwoFit};
ghost use Rattle.frames.specs.Raw.{header_of};
ghost use Rattle.table.specs.Contents.{grammar_of, table_of};
ghost use Rattle.table.specs.Rows.{VerdictBy, defined, distinct, found, one_fits, chosen, state_rows, SuccessorsOnce, StateGood, ChoicesGood, Answers};
ghost use Rattle.table.specs.States.{file, Firsts, IsAt};

use super::Judge;
use crate::at::At;
use crate::fits::Fits;
use crate::lowest::{lowest, refuse};
use crate::refused::CheckRefusal;
use solver::Value;
use words::{Words, first_sets};

impl<const K: usize> Judge<'_, K> {
    // FIRST of each nonterminal.
    fn firsts(&self) -> [Words<K>; 24]
        ensures { Firsts K (file self.now.draft.now) result }
    {
        let mut sets = [Words::<K>::bottom(); 24];
        first_sets(
            self.draft.rules(),
            &mut sets[0..self.draft.header.n as usize],
        );
        sets
    }

    // The five rows have one shape: what each closure asks and tells stands in its clauses.

    // The lowest state that is not as defined.
    fn undefined(&self) -> Option<u8>
        ensures { Answers (file self.now.draft.now) defined result }
    {
        let draft = self.draft;
        let sets = self.firsts();
        lowest(
            draft.header.s,
            |q|
                requires at { IsAt K draft.now q }
                requires firsts { Firsts K (file draft.now) sets }
                ensures { Decides result (StateGood (file draft.entry.now) q) }
            { At::<K> { draft, q }.is_good(&sets) },
        )
    }

    // The lowest state that is equal to a lower one.
    fn equal_to_lower(&self) -> Option<u8>
        ensures { Answers (file self.now.draft.now) distinct result }
    {
        let draft = self.draft;
        lowest(
            draft.header.s,
            |q|
                requires { IsAt K draft.now q }
                ensures { Decides result (EqualToLower (table_of (file draft.entry.now)) q → ⊥) }
            { At::<K> { draft, q }.is_distinct() },
        )
    }

    // The lowest state after 0 that is no successor of a lower one. What an earlier row has shown is asked for: a type for it
    // would serve this row alone.
    fn not_found(&self) -> Option<u8>
        requires { (m : ℕ) → m < (header_of (file self.now.draft.now)).s → SuccessorsOnce (file self.now.draft.now) m }
        ensures { Answers (file self.now.draft.now) found result }
    {
        let draft = self.draft;
        lowest(
            draft.header.s,
            |q|
                requires at { IsAt K draft.now q }
                requires once { (m : ℕ) → m < (header_of (file draft.now)).s → SuccessorsOnce (file draft.now) m }
                ensures { Decides result (NotFound (table_of (file draft.entry.now)) q → ⊥) }
            { At::<K> { draft, q }.is_found() },
        )
    }

    // The lowest state at which two rules fit one word.
    fn two_fit(&self) -> Option<u8>
        ensures { Answers (file self.now.draft.now) one_fits result }
    {
        let draft = self.draft;
        lowest(
            draft.header.s,
            |q|
                requires { IsAt K draft.now q }
                ensures { Decides result (TwoFit (grammar_of (file draft.entry.now)) (table_of (file draft.entry.now)) q → ⊥) }
            { Fits::new(At::<K> { draft, q }).one_fits() },
        )
    }

    // The lowest state at which the choices are not as defined.
    fn mischosen(&self) -> Option<u8>
        requires { (q : ℕ) → q < (header_of (file self.now.draft.now)).s → TwoFit (grammar_of (file self.now.draft.now)) (table_of (file self.now.draft.now)) q → ⊥ }
        ensures { Answers (file self.now.draft.now) chosen result }
    {
        let draft = self.draft;
        lowest(
            draft.header.s,
            |q|
                requires at { IsAt K draft.now q }
                requires one { TwoFit (grammar_of (file draft.now)) (table_of (file draft.now)) q → ⊥ }
                ensures { Decides result (ChoicesGood (file draft.entry.now) q) }
            { Fits::new(At::<K> { draft, q }).choices_good() },
        )
    }

    // Judges whether each state after 0 is a successor of a lower one.
    fn judge_found(&self) -> Result<(), CheckRefusal>
        requires { (m : ℕ) → m < (header_of (file self.now.draft.now)).s → SuccessorsOnce (file self.now.draft.now) m }
        ensures { VerdictBy (file self.now.draft.now) (found ∷ []) result }
    {
        refuse(self.not_found(), CheckRefusal::NotFound)?;
        Ok(())
    }

    /// Judges the states by their five rows.
    pub fn judge_states(&self) -> Result<(), CheckRefusal>
        ensures { VerdictBy (file self.now.draft.now) state_rows result }
    {
        refuse(self.undefined(), CheckRefusal::Undefined)?;
        refuse(self.equal_to_lower(), CheckRefusal::EqualToLower)?;
        self.judge_found()?;
        refuse(self.two_fit(), CheckRefusal::TwoFit)?;
        refuse(self.mischosen(), CheckRefusal::Mischosen)?;
        Ok(())
    }
}
