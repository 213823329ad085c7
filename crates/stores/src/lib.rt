//! Stores: what a store means, and two makes of it.
#![tactic(auto)]

mod interface;
mod laws;
mod notes;
mod rows;
mod shadow;
mod types;
mod undo;

pub use interface::Store;
pub use laws::store_laws_hold;
pub use shadow::ShadowStore;
pub use types::{CHANGE_LIMIT, Pair, StoreRefusal};
pub use undo::UndoStore;
