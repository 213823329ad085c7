// What a script may ask for, and why a script is refused.
ghost use Rattle.std.specs.Prelude.{◌≡◌};
ghost use Rattle.scripts.specs.Reasons.{script_reason_number};

use std::error::Error;
use std::fmt;

/// One operation on the store of a service.
#[derive(Clone, Copy, PartialEq, Eq, Debug)]
pub enum Operation {
    Look { key: u64 },
    Put { key: u64, value: u32 },
    Need { key: u64, value: u32 },
    Add { key: u64, value: u32 },
    Drop { key: u64 },
}

impl fmt::Display for Operation {
    fn fmt<W: fmt::Write>(&self, f: &mut fmt::Formatter<W>) -> fmt::Result {
        match self {
            Operation::Look { key } => write!(f, "look at {key}"),
            Operation::Put { key, value } => write!(f, "put {value} under {key}"),
            Operation::Need { key, value } => write!(f, "need {value} under {key}"),
            Operation::Add { key, value } => write!(f, "add {value} to {key}"),
            Operation::Drop { key } => write!(f, "drop {key}"),
        }
    }
}

/// Why a script is refused.
#[derive(Clone, Copy, PartialEq, Eq, Debug)]
pub enum ScriptReason {
    UnknownCode = 20,
    /// The script ends before the command does.
    MissingOperands = 21,
    OperationBeforePart = 22,
    NoSuchService = 23,
    /// A part without an operation, or no part at all.
    EmptyPart = 24,
    ServiceNamedTwice = 25,
    TooManyParts = 26,
    TooManyOperations = 27,
}

// The number under which the refusal is reported.
impl From<ScriptReason> for u8 {
    ghost from_gives = { λ reason number. number ≡ script_reason_number reason };

    fn from(reason: ScriptReason) -> u8 {
        reason as u8
    }
}

impl fmt::Display for ScriptReason {
    fn fmt<W: fmt::Write>(&self, f: &mut fmt::Formatter<W>) -> fmt::Result {
        f.write_str(match self {
            ScriptReason::UnknownCode => "the code is unknown",
            ScriptReason::MissingOperands => "operands are missing",
            ScriptReason::OperationBeforePart => "no part is open",
            ScriptReason::NoSuchService => "there is no such service",
            ScriptReason::EmptyPart => "a part has no operation",
            ScriptReason::ServiceNamedTwice => "the service was named before",
            ScriptReason::TooManyParts => "there are too many parts",
            ScriptReason::TooManyOperations => "there are too many operations",
        })
    }
}

impl Error for ScriptReason {}

/// The reason, and the place of the command that is to blame: the index of its code, or the
/// script's length if the script ends too early.
#[derive(Clone, Copy, PartialEq, Eq, Debug)]
pub struct ScriptRefusal {
    pub reason: ScriptReason,
    pub place: usize,
}

impl fmt::Display for ScriptRefusal {
    fn fmt<W: fmt::Write>(&self, f: &mut fmt::Formatter<W>) -> fmt::Result {
        let number = u8::from(self.reason);
        let place = self.place;
        let why = self.reason;
        write!(f, "{number} at {place}, {why}")
    }
}

impl Error for ScriptRefusal {}
