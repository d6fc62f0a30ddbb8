//! The law of `print`.
ghost use Rattle.dcx_script_laws.specs.Printing.{HoldsForPrints};

/// What stands in a `print` has no meaning, so a script that was read means what the tree of its bytes means.
pub fn prints()
    ensures { HoldsForPrints }
{}
