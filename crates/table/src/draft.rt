//! A table of the right form that is not checked further yet.
ghost use Rattle.std.specs.Prelude.{◌≡◌, length, take};
ghost use Rattle.solver.specs.Solution.{rules_of};
ghost use Rattle.frames.specs.Raw.{header_of};
ghost use Rattle.frames.specs.Views.{raw};
ghost use Rattle.table.specs.Contents.{grammar_of};
ghost use Rattle.table.specs.Drafts.{Formed};

use frames::{Frames, Header};
use solver::Rule;

mod reading;

/// The frames with their numbers, and the rules as the solver takes them.
#[derive(Clone, Copy)]
pub struct Draft<'a> {
    pub frames: Frames<'a>,
    pub header: Header,
    // The first `header.p` are rules of the table: fixed memory, no heap.
    rules: [Rule<'a>; 60],
    ghost formed: { Formed (raw frames) },
    ghost header_is: { header ≡ header_of (raw frames) },
    ghost rules_are: { rules_of (take header.p rules) ≡ (grammar_of (raw frames)).rules },
    ghost many: { length rules ≡ 60 },
}
