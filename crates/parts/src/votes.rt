// What running a part comes to: a vote, and look numbers.
ghost use Rattle.std.specs.Prelude.{◌≡◌};
ghost use Rattle.parts.specs.Votes.{cause_number, look_number};
ghost use Rattle.parts.specs.declared.votes.Cause.TheVariants.{ByBank};

use banks::BankRefusal;
use std::error::Error;
use std::fmt;

/// Why an operation failed.
#[derive(Clone, Copy, PartialEq, Eq, Debug)]
pub enum Cause {
    /// The bank refused it.
    ByBank(BankRefusal),
    /// The key has not the value that is needed.
    NotAsNeeded,
    /// The sum is above the largest value.
    SumTooLarge,
}

impl From<BankRefusal> for Cause {
    ghost from_gives = { λ why cause. cause ≡ ByBank why };

    fn from(why: BankRefusal) -> Self {
        Self::ByBank(why)
    }
}

// The number under which the cause is reported. One case carries a bank's refusal, so that the enum has
// no numbers of its own.
impl From<Cause> for u8 {
    ghost from_gives = { λ cause number. number ≡ cause_number cause };

    fn from(cause: Cause) -> u8 {
        match cause {
            Cause::ByBank(why) => u8::from(why),
            Cause::NotAsNeeded => 45,
            Cause::SumTooLarge => 46,
        }
    }
}

impl fmt::Display for Cause {
    fn fmt<W: fmt::Write>(&self, f: &mut fmt::Formatter<W>) -> fmt::Result {
        match self {
            Cause::ByBank(why) => write!(f, "{why}"),
            Cause::NotAsNeeded => f.write_str("the key has not the value needed"),
            Cause::SumTooLarge => f.write_str("the sum is too large"),
        }
    }
}

impl Error for Cause {}

/// A service's vote on its part: no tells the first operation that failed, counted from 0, and why.
/// It is no `Result`: a part that votes no has run as it should, and its vote is kept and sent on.
#[derive(Clone, Copy, PartialEq, Eq, Debug)]
pub enum Vote {
    Yes,
    No { operation: usize, cause: Cause },
}

impl fmt::Display for Vote {
    fn fmt<W: fmt::Write>(&self, f: &mut fmt::Formatter<W>) -> fmt::Result {
        match self {
            Vote::Yes => f.write_str("yes"),
            Vote::No { operation, cause } => {
                let number = u8::from(*cause);
                write!(f, "no: {number} at operation {operation}, {cause}")
            }
        }
    }
}

/// The number that a LOOK gives for an absent key. A LOOK gives one number, so absent has one too and is
/// no `None`.
pub const ABSENT: u64 = 4_294_967_296;

// The number that a LOOK gives: the value, or one above the largest value for absent.
pub(crate) fn look_number(value: Option<u32>) -> u64
    ensures { result ≡ look_number value }
{
    value.map_or(ABSENT, u64::from)
}
