//! Worked examples of the sources, of the check and of readings, proved by computation.
#![tactic(auto)]

mod compared;
mod histories;
mod look_ups;
mod readings;
mod sources;
mod tables;

pub use compared::compared_stand;
pub use histories::{Watched, watched_case, watched_pile_case};
pub use look_ups::{LookUps, look_up_case};
pub use readings::{
    Report, closed_wrongly_case, nothing_case, readings_stand, second_unfit_case, sentence_case,
    whole_sheet_case,
};
pub use sources::{Outcome, quota_case, sheet_case, skip_case};
pub use tables::{
    ACCEPTED, ACCEPTED_STARTS, accepted_case, enclosing_case, left_recursive_case,
    looking_further_case, misworded_case, renumbered_case, tables_stand,
};
