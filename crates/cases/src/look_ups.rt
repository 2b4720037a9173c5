//! Look-ups in a table that was checked.
ghost use Rattle.std.specs.Prelude.{◌≡◌, Ok};
ghost use Rattle.table.specs.Checked.{contents};
ghost use Rattle.cases.specs.LookUps.{look_ups, looked_in};

use crate::tables::{ACCEPTED, ACCEPTED_STARTS, accepted_case};
use frames::Header;
use symbols::Word;
use table::{CheckRefusal, CheckedTable, checked};

/// What a checked table answers: its numbers, two successors and two choices.
#[derive(Clone, Copy)]
pub struct LookUps {
    pub header: Header,
    pub successors: [Option<u8>; 2],
    pub choices: [Option<u8>; 2],
}

const END: Word = Word {
    first: 31,
    second: 0,
};

const ONE: Word = Word {
    first: 1,
    second: 0,
};

/// The numbers; the successors of states 0 and 1 by 33; the rules chosen at state 0 for 33 and the end mark, and for 32
/// and 1.
fn look_ups_in(table: CheckedTable<'_>) -> LookUps
    ensures { result ≡ looked_in (contents table.entry) }
{
    LookUps {
        header: table.header(),
        successors: [table.successor(0, 33), table.successor(1, 33)],
        choices: [table.choice(0, 33, END), table.choice(0, 32, ONE)],
    }
}

/// Made of the accepted table, a checked table names state 2 behind state 0 by 33, and none behind state 1; at state 0 it
/// chooses rule 2 for 33 and the end mark, and no rule for 32 and 1.
pub fn look_up_case() -> Result<LookUps, CheckRefusal>
    ensures { result ≡ Ok look_ups }
{
    accepted_case()?;
    let table = checked(
        ACCEPTED,
        &ACCEPTED_STARTS,
        ACCEPTED_STARTS.len(),
        ACCEPTED.len(),
    );
    Ok(look_ups_in(table))
}
