//! The stack of a reading.
ghost use Rattle.std.specs.Prelude.{◌≤◌};

pub mod blocks;
pub mod pushing;
pub mod states;

/// A stack has at most so many states.
pub const MOST_STATES: usize = 256;

/// The states of a right side, of which there are six at most, come onto a stack in a block of so many cells.
pub const BLOCK: usize = 8;

/// At most 256 states. The stack grows down: those from `top` on are in use, the top first. The cells in front of the 256 never hold one of them, so
/// that a block which ends at the top has room.
#[derive(Drop)]
pub struct Stack {
    cells: [u8; MOST_STATES + BLOCK],
    top: usize,
    ghost spare: { 8 ≤ top },
    ghost within: { top ≤ 264 },
}
