// Running a part on a store of any bank.
ghost use Rattle.std.specs.Prelude.{◌≡◌, ◌++◌, take};
ghost use Rattle.scripts.specs.Lists.{operations_of};
ghost use Rattle.parts.specs.Looks.{looks_of};
ghost use Rattle.parts.specs.OnBank.{operated};
ghost use Rattle.parts.specs.Runs.{run_part_at};

use crate::looks::Looks;
use crate::votes::{Cause, Vote, look_number};
use banks::{Bank, BankRefusal};
use scripts::{Operation, OperationList};
use stores::StoreRefusal;

/// What running a part came to.
#[derive(Clone, Copy)]
pub struct Ran {
    pub vote: Vote,
    pub looks: Looks,
}

// Puts the sum of a key's value and another. Bank and service stay two arguments here and below: a
// struct of both would only wrap the `&mut`.
#[tactic(auto, using(crate::proofs::BankRuns::read_only))]
fn add<B: Bank>(bank: &mut B, service: u8, key: u64, value: u32) -> Result<Option<u64>, Cause>
    ensures answer { result ≡ (operated service (Operation.Add key value) (B.Bank.stores bank.old)).answer }
    ensures next { B.Bank.stores bank.new ≡ (operated service (Operation.Add key value) (B.Bank.stores bank.old)).next }
{
    let found = bank
        .look(service, key)?
        .ok_or(BankRefusal::ByStore(StoreRefusal::KeyAbsent))?;
    let sum = found.checked_add(value).ok_or(Cause::SumTooLarge)?;
    bank.put(service, key, sum)?;
    Ok(None)
}

// Runs one operation: a look number if it is a LOOK, or why it failed.
#[tactic(auto, using(crate::proofs::BankRuns::read_only))]
fn operate<B: Bank>(bank: &mut B, service: u8, operation: Operation) -> Result<Option<u64>, Cause>
    ensures answer { result ≡ (operated service operation (B.Bank.stores bank.old)).answer }
    ensures next { B.Bank.stores bank.new ≡ (operated service operation (B.Bank.stores bank.old)).next }
{
    match operation {
        Operation::Look { key } => Ok(Some(look_number(bank.look(service, key)?))),
        Operation::Put { key, value } => {
            bank.put(service, key, value)?;
            Ok(None)
        }
        Operation::Need { key, value } => {
            if bank.look(service, key)? == Some(value) {
                Ok(None)
            } else {
                Err(Cause::NotAsNeeded)
            }
        }
        Operation::Add { key, value } => add(bank, service, key, value),
        Operation::Drop { key } => {
            bank.drop(service, key)?;
            Ok(None)
        }
    }
}

// Runs operations on a store in order, up to the first that fails, and notes what they look at in the
// caller's list, so that a failure answers the vote alone.
#[tactic(auto, using(crate::proofs::BankRuns::part_turns))]
fn vote_on<B: Bank>(bank: &mut B, service: u8, operations: &[Operation], looks: &mut Looks) -> Vote
    ensures vote { result ≡ (run_part_at service operations.now (B.Bank.stores bank.old)).vote }
    ensures looks { looks_of looks.new ≡ take 8 (looks_of looks.old ++ (run_part_at service operations.now (B.Bank.stores bank.old)).looks) }
    ensures next { B.Bank.stores bank.new ≡ (run_part_at service operations.now (B.Bank.stores bank.old)).next }
{
    if service >= bank.count() {
        return Vote::No {
            operation: 0,
            cause: Cause::ByBank(BankRefusal::NoSuchStore),
        };
    }
    // The vote tells the number of the operation that failed. It is no `Result`: so no `?`.
    for (i, operation) in operations.iter().enumerate() {
        match operate(bank, service, *operation) {
            Ok(look) => looks.note(look),
            Err(cause) => {
                return Vote::No {
                    operation: i,
                    cause,
                };
            }
        }
    }
    Vote::Yes
}

/// Runs a part on the store of its service, in order and up to the first operation that fails; the
/// other stores stay as they were.
#[tactic(auto, using(crate::proofs::BankRuns::looks_capped))]
pub fn run_part<B: Bank>(bank: &mut B, service: u8, operations: &OperationList) -> Ran
    ensures vote { result.vote ≡ (run_part_at service (operations_of operations.now) (B.Bank.stores bank.old)).vote }
    ensures looks { looks_of result.looks ≡ (run_part_at service (operations_of operations.now) (B.Bank.stores bank.old)).looks }
    ensures next { B.Bank.stores bank.new ≡ (run_part_at service (operations_of operations.now) (B.Bank.stores bank.old)).next }
{
    let mut looks = Looks::new();
    let vote = vote_on(bank, service, operations.as_slice(), &mut looks);
    Ran { vote, looks }
}
