// The laws of a bank's meaning, as a contract.
ghost use Rattle.banks.specs.Laws.{BankLaws};

/// Does nothing: its contract is the theorem.
pub fn bank_laws_hold()
    ensures { BankLaws }
{}
