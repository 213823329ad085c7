// Parts and operations in lists of limited length.
use crate::types::Operation;
use short_lists::ShortList;

/// The most parts of a script, and the most operations of a part.
pub const PART_LIMIT: usize = 4;

pub const OPERATION_LIMIT: usize = 8;

/// The operations of a part.
pub type OperationList = ShortList<Operation, OPERATION_LIMIT>;

/// A part: its service, the place of its opening code, and its operations.
#[derive(Clone, Copy)]
pub struct ScriptPart {
    pub service: u8,
    pub place: usize,
    pub operations: OperationList,
}

/// A script that was read: its parts. A type of its own, since callers read a script and add nothing.
#[derive(Clone, Copy)]
pub struct Script {
    pub(crate) parts: ShortList<ScriptPart, PART_LIMIT>,
}
