// The pair that a store keeps, and the reasons for which a store refuses.
ghost use Rattle.std.specs.Prelude.{◌≡◌};
ghost use Rattle.stores.specs.Refusals.{refusal_number};

use std::error::Error;
use std::fmt;

/// A key with its value.
#[derive(Clone, Copy, PartialEq, Eq, Debug)]
pub struct Pair {
    pub key: u64,
    pub value: u32,
}

/// The most changes that one trial may make.
pub const CHANGE_LIMIT: u8 = 8;

/// Why a store refused an operation.
#[derive(Clone, Copy, PartialEq, Eq, Debug)]
pub enum StoreRefusal {
    /// No trial is open.
    TrialClosed = 40,
    /// A trial is open already.
    TrialOpen = 41,
    /// The open trial has made all the changes it may make.
    TooManyChanges = 42,
    /// The key is new and the working pairs fill the capacity.
    Full = 43,
    /// No pair has the key.
    KeyAbsent = 44,
}

// The number under which the refusal is reported.
impl From<StoreRefusal> for u8 {
    ghost from_gives = { λ why number. number ≡ refusal_number why };

    fn from(why: StoreRefusal) -> u8 {
        why as u8
    }
}

impl fmt::Display for StoreRefusal {
    fn fmt<W: fmt::Write>(&self, f: &mut fmt::Formatter<W>) -> fmt::Result {
        f.write_str(match self {
            StoreRefusal::TrialClosed => "no trial is open",
            StoreRefusal::TrialOpen => "a trial is open",
            StoreRefusal::TooManyChanges => "the trial has made all its changes",
            StoreRefusal::Full => "the store is full",
            StoreRefusal::KeyAbsent => "the key is absent",
        })
    }
}

impl Error for StoreRefusal {}
