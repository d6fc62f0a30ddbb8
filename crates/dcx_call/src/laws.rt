//! Laws of all calls. There is no code: each clause is a statement about all calls.
ghost use Rattle.dcx_call.specs.Laws.{HoldsForCalls};
ghost use Rattle.dcx_call.specs.Exact.{FormsExactly};

/// Each value has the sign that is told, and moves with each argument as the trend says.
pub fn calls()
    ensures { HoldsForCalls }
{}

/// Where each number of the arguments is a fraction of 128 bits, and no argument has more than 20,000 entries, an entry that is
/// formed is the entry of the value.
pub fn formed_entries_are_exact()
    ensures { FormsExactly }
{}
