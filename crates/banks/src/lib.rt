//! Banks: one store, or two banks joined, is a bank of 1 to 8 stores.
#![tactic(auto)]

mod both;
mod interface;
mod laws;
mod one;
mod sweeps;
mod types;

pub use both::Both;
pub use interface::Bank;
pub use laws::bank_laws_hold;
pub use one::One;
pub use sweeps::{begin_all, commit_all, roll_back_all};
pub use types::{BankRefusal, OpenTrial, STORE_LIMIT};
