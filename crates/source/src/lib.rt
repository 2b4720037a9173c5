//! Token sources: what a reader asks for its tokens, and the layers that stand between the two.
//!
//! A source means a list of tokens with their places and a last entry, the end or a fault. The trait `Source` has this
//! meaning as a ghost member; every source and every layer is proved to give its meaning entry by entry.
#![tactic(auto)]

mod draining;
mod fault;
mod layer;
mod show;
mod source;
mod stored;
mod token;

pub use draining::{Drained, Stop, drain};
pub use fault::{Faulted, LayerFault, TooLong, check_length};
pub use layer::{Quota, Skip, quota_law, skip_law};
pub use source::Source;
pub use stored::StoredList;
pub use token::{Entry, Place, Token};
