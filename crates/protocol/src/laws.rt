// What is proved of the definitions, as contracts.
ghost use Rattle.protocol.specs.Examples.{Examples};
ghost use Rattle.protocol.specs.Kept.{KeptLaws};
ghost use Rattle.protocol.specs.Law.{LawOfEveryRun};
ghost use Rattle.protocol.specs.Never.{RegularRuns};

/// Does nothing: its contract is that the definitions give each worked example.
pub fn examples_hold()
    ensures { Examples }
{}

/// Does nothing: its contract is that every run keeps a request for each Given service and for no
/// other, and at most one message for each part that waits; so that each finds a place.
pub fn kept_facts_hold()
    ensures { KeptLaws }
{}

/// Does nothing: its contract is the law of every run. After every list of the ten calls from an
/// opening, no service has acted against its client's decision, and the committed transactions, run
/// one at a time in the order of their decisions, vote yes, give the look numbers that GET gave, and
/// leave the pairs that stand in the stores.
pub fn law_of_every_run_holds()
    ensures { LawOfEveryRun }
{}

/// Does nothing: its contract is that no run comes to a state in which a definition merely chooses an
/// answer: a Given service without a request, a trial that does not fit the phase, a full pool, a part
/// that has a message before its service replied.
pub fn runs_stay_regular()
    ensures { RegularRuns }
{}
