// The phases of a service, the states of a part, and the reasons for which a site refuses a call.
ghost use Rattle.std.specs.Prelude.{◌≡◌};
ghost use Rattle.protocol.specs.Reasons.{reason_number};
ghost use Rattle.protocol.specs.declared.types.Reason.TheVariants.{InScript};

use scripts::ScriptReason;
use std::error::Error;
use std::fmt;

/// What a service is about.
#[derive(Clone, Copy, PartialEq, Eq, Debug)]
pub enum Phase {
    Down,
    Ready,
    /// A request waits for it.
    Given,
    /// It has worked and not replied.
    Holding,
    /// It waits for its decision.
    Promised,
}

/// How far a part of an open transaction has come.
#[derive(Clone, Copy, PartialEq, Eq, Debug)]
pub enum PartState {
    Unsent,
    Waiting,
    Replied,
    TimedOut,
}

/// Why a site refused a call.
#[derive(Clone, Copy, PartialEq, Eq, Debug)]
pub enum Reason {
    NoSuchClient,
    NoSuchService,
    TransactionOpen,
    /// The client's next number is the largest, which is never given.
    NumbersSpent,
    NoTransaction,
    NoSuchPart,
    SentBefore,
    NotSent,
    /// The part is replied or timed out.
    Answered,
    NoMessage,
    ListTooShort,
    /// A part is unsent or waiting.
    PartPending,
    /// Too few places are free for the decisions.
    NoRoom,
    WrongPhase,
    NoSuchDecision,
    InScript(ScriptReason),
}

impl From<ScriptReason> for Reason {
    ghost from_gives = { λ why reason. reason ≡ InScript why };

    fn from(why: ScriptReason) -> Self {
        Self::InScript(why)
    }
}

// The number under which the refusal is reported. One case carries a script's reason, so that the enum
// has no numbers of its own.
impl From<Reason> for u8 {
    ghost from_gives = { λ reason number. number ≡ reason_number reason };

    fn from(reason: Reason) -> u8 {
        match reason {
            Reason::NoSuchClient => 1,
            Reason::NoSuchService => 2,
            Reason::TransactionOpen => 3,
            Reason::NumbersSpent => 4,
            Reason::NoTransaction => 5,
            Reason::NoSuchPart => 6,
            Reason::SentBefore => 7,
            Reason::NotSent => 8,
            Reason::Answered => 9,
            Reason::NoMessage => 10,
            Reason::ListTooShort => 11,
            Reason::PartPending => 12,
            Reason::NoRoom => 13,
            Reason::WrongPhase => 14,
            Reason::NoSuchDecision => 15,
            Reason::InScript(why) => u8::from(why),
        }
    }
}

impl fmt::Display for Reason {
    fn fmt<W: fmt::Write>(&self, f: &mut fmt::Formatter<W>) -> fmt::Result {
        f.write_str(match self {
            Reason::NoSuchClient => "there is no such client",
            Reason::NoSuchService => "there is no such service",
            Reason::TransactionOpen => "a transaction is open",
            Reason::NumbersSpent => "the numbers are spent",
            Reason::NoTransaction => "no transaction is open",
            Reason::NoSuchPart => "there is no such part",
            Reason::SentBefore => "the part was sent before",
            Reason::NotSent => "the part is unsent",
            Reason::Answered => "the part is replied or timed out",
            Reason::NoMessage => "no message is there",
            Reason::ListTooShort => "the list is too short",
            Reason::PartPending => "a part is unsent or waiting",
            Reason::NoRoom => "too few places are free for the decisions",
            Reason::WrongPhase => "the service is in another phase",
            Reason::NoSuchDecision => "there is no such decision",
            Reason::InScript(why) => return write!(f, "{why}"),
        })
    }
}

impl Error for Reason {}
