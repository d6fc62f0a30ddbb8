//! The laws of nodes.
ghost use Rattle.dcx_script_laws.specs.Trees.{HoldsForTrees};

/// What is carried along has a tree of nodes, to which expressions and lines only add; values have no nodes but those that are
/// there.
pub fn trees()
    ensures { HoldsForTrees }
{}
