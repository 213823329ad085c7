// The laws of reading, as a contract.
ghost use Rattle.scripts.specs.Laws.{ScriptLaws};

/// Does nothing: its contract is the theorem.
#[tactic(auto, using(crate::proofs::Lawful::script_laws))]
pub fn script_laws_hold()
    ensures { ScriptLaws }
{}
