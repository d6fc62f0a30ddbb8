//! Laws above the definitions of `specs/`. There is no code: each clause is a statement about all lists of nodes.
ghost use Rattle.dcx_arena.specs.Laws.{HoldsForSharing, HoldsForParts};

use crate::operator::Operator;

/// Each node stands for one expression, a finite tree of calls, and no other node of its tree stands for that one.
pub fn sharing<C: Operator>()
    ensures { HoldsForSharing C.gives }
{}

/// A part has the nodes that the roots reach, each once and behind its arguments, and they stand for the same expressions.
pub fn parts<C: Operator>()
    ensures { HoldsForParts C.gives }
{}
