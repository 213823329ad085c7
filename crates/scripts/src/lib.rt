//! Scripts: bytes read as the parts of a transaction, each a few operations on one service.
#![tactic(auto)]

mod bounded;
mod commands;
mod cursor;
mod laws;
mod parts;
mod reader;
mod types;

pub use bounded::{OPERATION_LIMIT, OperationList, PART_LIMIT, Script, ScriptPart};
pub use cursor::PartText;
pub use laws::script_laws_hold;
pub use reader::{Reader, read_script};
pub use types::{Operation, ScriptReason, ScriptRefusal};
