//! A reading.
ghost use Rattle.std.specs.Prelude.{◌≤◌, ◌+◌, length};
ghost use Rattle.table.specs.Checked.{contents};
ghost use Rattle.table.specs.Contents.{grammar_of, table_of};
ghost use Rattle.reading.specs.Given.{symbols_of};
ghost use Rattle.reading.specs.Parts.{states, entries};
ghost use Rattle.reading.specs.Remembered.{Remembered};
ghost use Rattle.reading.specs.Stack.{Placed};

use crate::answer::Standing;
use crate::memory::Memory;
use crate::stack::Stack;
use crate::window::Window;
use std::marker::PhantomData;
use table::CheckedTable;

pub mod acting;
pub mod filling;
pub mod open;
pub mod remembering;
pub mod run;
pub mod standing;
pub mod step;

/// A reading by a checked table, over sources of one kind of fault. Only `open` makes one; it is not copied, and `close` consumes it.
pub struct Reading<'a, F> {
    table: CheckedTable<'a>,
    memory: Memory,
    stack: Stack,
    window: Window,
    tokens: u32,
    rules: u32,
    moves: u32,
    standing: Standing,
    fault: PhantomData<F>,
    ghost few: { moves ≤ 1000000 },
    ghost ruled: { rules ≤ moves },
    ghost counted: { tokens ≤ moves + length (entries window) },
    ghost placed: { ∥ Placed (grammar_of (contents table)) (table_of (contents table)) (states stack) (symbols_of (entries window)) ∥₁ },
    ghost remembers: { ∥ Remembered (contents table) memory ∥₁ },
}
