// The reasons for which a bank, or a sweep of its stores, refuses.
ghost use Rattle.std.specs.Prelude.{◌≡◌};
ghost use Rattle.banks.specs.Refusals.{bank_refusal_number};
ghost use Rattle.banks.specs.declared.types.BankRefusal.TheVariants.{ByStore};

use std::error::Error;
use std::fmt;
use stores::StoreRefusal;

/// The most stores that a bank has.
pub const STORE_LIMIT: u8 = 8;

/// Why a bank refused an operation.
#[derive(Clone, Copy, PartialEq, Eq, Debug)]
pub enum BankRefusal {
    /// The bank has no store with this number.
    NoSuchStore,
    /// The store refused.
    ByStore(StoreRefusal),
}

impl From<StoreRefusal> for BankRefusal {
    ghost from_gives = { λ why refusal. refusal ≡ ByStore why };

    fn from(why: StoreRefusal) -> Self {
        Self::ByStore(why)
    }
}

// The number under which the refusal is reported. One case carries a store's refusal, so that the enum
// has no numbers of its own.
impl From<BankRefusal> for u8 {
    ghost from_gives = { λ why number. number ≡ bank_refusal_number why };

    fn from(why: BankRefusal) -> u8 {
        match why {
            BankRefusal::NoSuchStore => 2,
            BankRefusal::ByStore(why) => u8::from(why),
        }
    }
}

impl fmt::Display for BankRefusal {
    fn fmt<W: fmt::Write>(&self, f: &mut fmt::Formatter<W>) -> fmt::Result {
        match self {
            BankRefusal::NoSuchStore => f.write_str("there is no such store"),
            BankRefusal::ByStore(why) => write!(f, "{why}"),
        }
    }
}

impl Error for BankRefusal {}

/// Why trials were not begun in all stores: one is open in this store.
#[derive(Clone, Copy, PartialEq, Eq, Debug)]
pub struct OpenTrial {
    pub service: u8,
}

impl fmt::Display for OpenTrial {
    fn fmt<W: fmt::Write>(&self, f: &mut fmt::Formatter<W>) -> fmt::Result {
        write!(f, "a trial is open in store {}", self.service)
    }
}

impl Error for OpenTrial {}
