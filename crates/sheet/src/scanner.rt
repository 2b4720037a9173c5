//! The scanner of a sheet.
ghost use Rattle.std.specs.Prelude.{◌+◌, ◌≤◌, length};

use crate::position::Position;

pub mod next;
pub mod open;

/// What is left of a sheet, and where its first byte stands.
#[derive(Drop)]
pub struct Scanner<'a> {
    rest: &'a [u8],
    at: Position,
    ghost few: { (at.line + length rest.now ≤ 60001) × (at.column + length rest.now ≤ 60001) × (1 ≤ at.line) },
}
