// A transaction over any bank: what a script's parts change stands in every store, or in none.
ghost use Rattle.std.specs.Prelude.{◌≡◌, take, map};
ghost use Rattle.std.specs.List.{list_all};
ghost use Rattle.short_lists.specs.ShortList.{listed};
ghost use Rattle.scripts.specs.Lists.{part_of, parts_of};
ghost use Rattle.issuing.specs.Transaction.{run_parts, says_yes, settled_of, told_of, transaction};

use crate::outcome::Outcome;
use banks::{Bank, OpenTrial, begin_all, commit_all, roll_back_all};
use parts::{Looks, Ran, Vote, run_part};
use scripts::{PART_LIMIT, Script, ScriptPart};
use short_lists::ShortList;

// Runs the parts in order, whatever they vote. Past the fourth, what a part told is left out.
#[tactic(auto, using(crate::proofs::Turning::turn_on, crate::proofs::Turning::turns_ended))]
fn run_parts<B: Bank>(bank: &mut B, parts: &[ScriptPart]) -> ShortList<Ran, PART_LIMIT>
    ensures told { map told_of (listed result) ≡ take 4 (run_parts (map part_of parts.now) (B.Bank.stores bank.old)).told }
    ensures next { B.Bank.stores bank.new ≡ (run_parts (map part_of parts.now) (B.Bank.stores bank.old)).next }
{
    let mut told = ShortList::new(Ran {
        vote: Vote::Yes,
        looks: Looks::new(),
    });
    for part in parts {
        let _ = told.push(run_part(bank, part.service, &part.operations));
    }
    told
}

// Whether every part votes yes.
fn all_agree(told: &[Ran]) -> bool
    ensures { result ≡ list_all says_yes (map told_of told.now) }
{
    told.iter().all(|ran| ran.vote == Vote::Yes)
}

/// Begins a trial in every store and runs the parts. If every vote is yes all stores commit; else all
/// roll back, and the bank is as it was. Refused, with the store's number, if a trial is open.
#[tactic(auto, using(crate::proofs::Turning::transaction_runs))]
pub fn transact<B: Bank>(bank: &mut B, script: &Script) -> Result<Outcome, OpenTrial>
    ensures answer { settled_of result ≡ (transaction (parts_of script.now) (B.Bank.stores bank.old)).answer }
    ensures next { B.Bank.stores bank.new ≡ (transaction (parts_of script.now) (B.Bank.stores bank.old)).next }
{
    begin_all(bank)?;
    let parts = run_parts(bank, script.as_slice());
    let committed = all_agree(parts.as_slice());
    if committed {
        commit_all(bank);
    } else {
        roll_back_all(bank);
    }
    Ok(Outcome { parts, committed })
}
