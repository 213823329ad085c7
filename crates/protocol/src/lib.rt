//! The protocol: what each call of a site answers and changes, as definitions; and the law of every run.
#![tactic(auto)]

mod laws;
mod types;

pub use laws::{examples_hold, kept_facts_hold, law_of_every_run_holds, runs_stay_regular};
pub use types::{PartState, Phase, Reason};
