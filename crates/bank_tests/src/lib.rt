//! Worked examples of stores and banks, run on both makes of store.
#![tactic(auto)]

#[cfg(test)]
mod bank_cases;
#[cfg(test)]
mod store_cases;
