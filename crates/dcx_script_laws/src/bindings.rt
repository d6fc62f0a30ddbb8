//! The laws of names.
ghost use Rattle.dcx_script_laws.specs.Bindings.{HoldsForExpressions, HoldsForBindings};

/// An expression leaves every name as it was, and so do a comprehension and each of its turns.
pub fn expressions()
    ensures { HoldsForExpressions }
{}

/// Lines bind no name twice, leave a name that they don't bind as it was, and unbind none.
pub fn lines()
    ensures { HoldsForBindings }
{}
