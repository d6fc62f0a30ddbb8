//! The names of what a script binds.
ghost use Rattle.dcx_script_laws.specs.Names.{HoldsForNames};

/// What a script stands for doesn't depend on the names of what it binds, but for the names themselves.
pub fn renamed()
    ensures { HoldsForNames }
{}
