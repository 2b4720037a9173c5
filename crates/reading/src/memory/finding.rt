//! Finding the course of a choice in a table.
ghost use Rattle.frames.specs.Form.{word_of};
ghost use Rattle.table.specs.Checked.{contents};
ghost use Rattle.reading.specs.Remembered.{HasChoice, Leads};

use super::Course;
use crate::stack::Stack;
use symbols::Word;
use table::CheckedTable;

impl Course {
    /// The rule that a table chooses at a state for a nonterminal and a word, and where its right side leads.
    pub fn find(table: CheckedTable<'_>, below: u8, symbol: u8, word: Word) -> Course
        requires { ∥ HasChoice (contents table) below symbol (word_of word.first word.second) ∥₁ }
        ensures { Leads (contents table.entry) below symbol (word_of word.first word.second) result }
    {
        let Some(rule) = table.choice(below, symbol, word) else {
            unreachable!()
        };
        let right = table.right_side(rule);
        let mut stack = Stack::new(below);
        stack.push_along(table, right);
        Course {
            rule,
            steps: right.len() as u8,
            states: stack.above_lowest(),
        }
    }
}
