// What is done to every store of a bank in turn.
ghost use Rattle.std.specs.Prelude.{◌≡◌};
ghost use Rattle.stores.specs.Store.{StoreModel, Step, commit_step, roll_back_step};
ghost use Rattle.banks.specs.Sweeps.{ActsAs, each_store, first_stores, begun_answer, begun_stores};

use crate::interface::Bank;
use crate::types::{BankRefusal, OpenTrial};
use std::ops::Range;

/// Commits the trials that are open.
pub fn commit_all<B: Bank>(bank: &mut B)
    ensures { B.Bank.stores bank.new ≡ each_store commit_step (B.Bank.stores bank.old) }
{
    let count = bank.count();
    on_first(bank, 0..count, B::commit);
}

/// Rolls back the trials that are open.
pub fn roll_back_all<B: Bank>(bank: &mut B)
    ensures { B.Bank.stores bank.new ≡ each_store roll_back_step (B.Bank.stores bank.old) }
{
    let count = bank.count();
    on_first(bank, 0..count, B::roll_back);
}

// Acts on a range of stores in turn, whatever each act answers. The clause speaks of ranges that begin with
// the first.
fn on_first<B: Bank, F: Fn(&mut B, u8) -> Result<(), BankRefusal>>(
    bank: &mut B,
    services: Range<u8>,
    act: F,
)
    requires { F.IsAlwaysCallable act }
    ensures { services.start ≡ 0 → (step : StoreModel → Step (Unit {0})) → ActsAs B.Bank.stores (F.post act) services.end step → B.Bank.stores bank.new ≡ first_stores step services.end (B.Bank.stores bank.old) }
{
    let Range { start, end } = services;
    // The number is the service itself.
    for service in start..end {
        let _ = act(bank, service);
    }
}

/// Begins a trial in every store; if one is open already, tells the lowest such store and leaves
/// the bank as it was.
pub fn begin_all<B: Bank>(bank: &mut B) -> Result<(), OpenTrial>
    ensures answer { result ≡ begun_answer (B.Bank.stores bank.old) }
    ensures next { B.Bank.stores bank.new ≡ begun_stores (B.Bank.stores bank.old) }
{
    // The number is the service itself. Only an open trial is refused, and what was begun is taken back
    // before it is told: so no `?`.
    for service in 0..bank.count() {
        if bank.begin(service).is_err() {
            on_first(bank, 0..service, B::roll_back);
            return Err(OpenTrial { service });
        }
    }
    Ok(())
}
