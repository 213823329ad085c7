//! Issuing: the parts of a script run on any bank, and stand in all of its stores or in none.
#![tactic(auto)]

mod outcome;
mod transaction;

pub use outcome::Outcome;
pub use transaction::transact;
