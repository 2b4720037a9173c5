//! The calls for C programs: load, check, scan and read. Refusals are numbers here, with what is returned with them.
#![tactic(auto)]

mod cause;
mod readings;
mod scanning;
mod tables;

pub use cause::Cause;
pub use readings::{ReadAnswer, reader_c_read};
pub use scanning::{ScanAnswer, reader_c_scan};
pub use tables::{LoadAnswer, reader_c_check, reader_c_load};
