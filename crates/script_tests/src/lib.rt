//! Worked examples of scripts.
#![tactic(auto)]

#[cfg(test)]
mod accepted_cases;
#[cfg(test)]
mod building;
#[cfg(test)]
mod reader_cases;
#[cfg(test)]
mod refused_cases;
#[cfg(test)]
mod run_cases;
