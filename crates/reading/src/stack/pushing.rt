//! Putting the states for a right side on a stack.
ghost use Rattle.std.specs.Prelude.{◌+◌, ◌≤◌, List, ℕ, length};
ghost use Rattle.table.specs.Checked.{contents};
ghost use Rattle.table.specs.Contents.{table_of};
ghost use Rattle.reading.specs.Parts.{states};
ghost use Rattle.reading.specs.Stack.{Pushes};

use super::Stack;
use table::CheckedTable;

impl Stack {
    /// Puts the successors by these symbols on, one upon the other, the last symbol first.
    pub fn push_along(&mut self, table: CheckedTable<'_>, symbols: &[u8])
        requires room { length (states self.old) + length symbols.now ≤ 256 }
        requires there { ∥ ((s : List ℕ) × Pushes (table_of (contents table)) symbols.now (states self.old) s) ∥₁ }
        ensures { Pushes (table_of (contents table.entry)) symbols.now (states self.old) (states self.new) }
    {
        for symbol in symbols.iter().rev() {
            let [top, ..] = self.states() else {
                unreachable!()
            };
            let Some(next) = table.successor(*top, *symbol) else {
                unreachable!()
            };
            self.push(next);
        }
    }
}
