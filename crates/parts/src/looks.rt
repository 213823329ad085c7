// Look numbers kept in place, as many as a part can give.
ghost use Rattle.std.specs.Prelude.{◌≡◌, [], ◌++◌, length, take};

use scripts::OPERATION_LIMIT;
use short_lists::ShortList;

/// The most look numbers that a part gives: one for each of its operations.
pub const LOOK_LIMIT: usize = OPERATION_LIMIT;

/// The look numbers of a part, in their order. A type of its own, since what does not fit is left out and
/// callers only read.
#[derive(Clone, Copy)]
pub struct Looks {
    numbers: ShortList<u64, LOOK_LIMIT>,
}

impl Looks {
    ghost use Rattle.parts.specs.Looks.{looks_of};
    ghost use Rattle.parts.specs.Votes.{with_look};

    pub fn new() -> Self
        ensures { looks_of result ≡ [] }
    {
        Looks {
            numbers: ShortList::new(0),
        }
    }

    // A look number more, if an operation gave one; past the eighth it is left out.
    #[tactic(auto, using(crate::proofs::BankRuns::looks_whole))]
    pub(crate) fn note(&mut self, look: Option<u64>)
        ensures { looks_of self.new ≡ take 8 (looks_of self.old ++ with_look look []) }
    {
        if let Some(number) = look {
            let _ = self.numbers.push(number);
        }
    }

    pub fn len(&self) -> usize
        ensures { result ≡ length (looks_of self.now) }
    {
        self.numbers.len()
    }

    /// The numbers in their order.
    pub fn as_slice(&self) -> &[u64]
        ensures { result.now ≡ looks_of self.now }
    {
        self.numbers.as_slice()
    }
}
