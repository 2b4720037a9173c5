//! A source over bytes in memory.
ghost use Rattle.std.specs.Prelude.{◌+◌, ◌≤◌, length};

pub mod open;

/// What is left of bytes in memory, each a token's kind, and how many of them have been given.
#[derive(Drop)]
pub struct StoredList<'a> {
    rest: &'a [u8],
    given: u32,
    ghost few: { given + length rest.now ≤ 60000 },
}
