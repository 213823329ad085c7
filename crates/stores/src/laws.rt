// The laws of a store's meaning, as a contract.
ghost use Rattle.stores.specs.Laws.{StoreLaws};

/// Does nothing: its contract is the theorem.
pub fn store_laws_hold()
    ensures { StoreLaws }
{}
