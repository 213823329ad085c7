// The one table of codes: which command stands at a place of a script.
ghost use Rattle.std.specs.Prelude.{◌≡◌, ◌+◌, ◌<◌, ◌≤◌, length};
ghost use Rattle.scripts.specs.Commands.{big_endian, command_at};

use crate::types::{Operation, ScriptReason};

// The codes: one opens a part, the others are operations.
pub(crate) const OPEN: u8 = 1;

const LOOK: u8 = 2;

const PUT: u8 = 3;

const NEED: u8 = 4;

const ADD: u8 = 5;

const DROP: u8 = 6;

// The bytes of a key, and of a key with its value.
const KEY: usize = 8;

const PAIR: usize = 12;

// A command of a script: it opens the part for a service, or acts in the part that is open.
#[derive(Clone, Copy, PartialEq, Eq, Debug)]
pub(crate) enum Command {
    Open { service: u8 },
    Act { operation: Operation },
}

// A command and the place behind it.
#[derive(Clone, Copy, PartialEq, Eq, Debug)]
pub(crate) struct Spelled {
    pub(crate) command: Command,
    pub(crate) end: usize,
}

// Reads the command whose code stands at a place: an arm for each code, as a table is read. A slice
// pattern for the operands was tried and did not prove.
pub(crate) fn command_at(bytes: &[u8], at: usize) -> Result<Spelled, ScriptReason>
    requires { at < length bytes.now }
    ensures { result ≡ command_at bytes.now at }
{
    let operands = &bytes[at + 1..];
    match bytes[at] {
        OPEN if !operands.is_empty() => {
            let service = operands[0];
            Ok(Spelled {
                command: Command::Open { service },
                end: at + 2,
            })
        }
        LOOK if operands.len() >= KEY => {
            let key = key(operands);
            Ok(acting(Operation::Look { key }, at + 1 + KEY))
        }
        PUT if operands.len() >= PAIR => {
            let (key, value) = pair(operands);
            Ok(acting(Operation::Put { key, value }, at + 1 + PAIR))
        }
        NEED if operands.len() >= PAIR => {
            let (key, value) = pair(operands);
            Ok(acting(Operation::Need { key, value }, at + 1 + PAIR))
        }
        ADD if operands.len() >= PAIR => {
            let (key, value) = pair(operands);
            Ok(acting(Operation::Add { key, value }, at + 1 + PAIR))
        }
        DROP if operands.len() >= KEY => {
            let key = key(operands);
            Ok(acting(Operation::Drop { key }, at + 1 + KEY))
        }
        OPEN..=DROP => Err(ScriptReason::MissingOperands),
        _ => Err(ScriptReason::UnknownCode),
    }
}

fn acting(operation: Operation, end: usize) -> Spelled
    ensures { result ≡ record { command = Command.Act operation; end = end } }
{
    Spelled {
        command: Command::Act { operation },
        end,
    }
}

// The key at the front of the operands.
fn key(operands: &[u8]) -> u64
    requires { 8 ≤ length operands.now }
    ensures { result ≡ big_endian 8 operands.now 0 }
{
    u64::from_be_bytes(*operands.first_chunk().unwrap())
}

// That key, and the value behind it.
fn pair(operands: &[u8]) -> (u64, u32)
    requires { 12 ≤ length operands.now }
    ensures { result ≡ (big_endian 8 operands.now 0, big_endian 4 operands.now 8) }
{
    (key(operands), value(&operands[KEY..]))
}

// As `key`, for the bytes of a value: the standard library has no trait with `from_be_bytes`, and one from
// a further crate would be longer than these two.
fn value(operand: &[u8]) -> u32
    requires { 4 ≤ length operand.now }
    ensures { result ≡ big_endian 4 operand.now 0 }
{
    u32::from_be_bytes(*operand.first_chunk().unwrap())
}
