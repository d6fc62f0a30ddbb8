//! Laws above the definitions of `specs/`. There is no code: each clause is a statement about all scripts.
ghost use Rattle.dcx_read.specs.Laws.{HoldsForScripts};

/// Tokens have at most one tree. They have one, or there is a first token such that no script begins with the tokens up to
/// it, where the end counts as a token; and not both.
pub fn scripts()
    ensures { HoldsForScripts }
{}
