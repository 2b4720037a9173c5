//! Opening a reading.
ghost use Rattle.table.specs.Checked.{contents};
ghost use Rattle.reading.specs.Calls.{Opened};

use super::Reading;
use crate::answer::Standing;
use crate::memory::Memory;
use crate::stack::Stack;
use crate::window::Window;
use std::marker::PhantomData;
use symbols::START;
use table::CheckedTable;

impl<'a, F> Reading<'a, F> {
    /// A reading by this table. Its lowest state is 0, and the successor of 0 by the start symbol stands on it.
    pub fn open(table: CheckedTable<'a>) -> Self
        ensures { Opened (contents table.entry) result }
    {
        let Some(top) = table.successor(0, START) else {
            unreachable!()
        };
        let mut stack = Stack::new(0);
        stack.push(top);
        let window = Window::new();
        Reading {
            table,
            memory: Memory::new(),
            stack,
            window,
            tokens: 0,
            rules: 0,
            moves: 0,
            standing: Standing::Running,
            fault: PhantomData,
        }
    }
}
