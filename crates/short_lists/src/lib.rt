//! Lists of limited length, kept in place: no memory is asked for.
#![tactic(auto)]

mod short_list;

pub use short_list::{Full, ShortList};
