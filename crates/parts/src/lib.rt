//! Parts: a part of a transaction run on the store of its service.
#![tactic(auto)]

mod looks;
mod runs;
mod votes;

pub use looks::{LOOK_LIMIT, Looks};
pub use runs::{Ran, run_part};
pub use votes::{ABSENT, Cause, Vote};
