//! A law of the nodes of a problem. There is no code: the clause is a statement about all of them.
ghost use Rattle.std.specs.Prelude.{◌≡◌, ◌≤◌, ℕ, List, length, Result};
ghost use Rattle.dcx_point.specs.Pairs.{Pairs};
ghost use Rattle.dcx_convex.specs.Rules.{Rules};
ghost use Rattle.dcx_tree.specs.declared.problem.Problem.{Problem};
ghost use Rattle.dcx_entries.specs.Nodes.{Table, NodeStop, NodesGive};

use dcx_linear::Coef;

/// Where the entries of parameters have one answer, nodes are formed in one way: one table of entries, or one node that stops
/// with one operation or divisor.
pub fn one_forming<C: Coef>()
    ensures { ((position : ℕ) (name : List ℕ) (entry : ℕ) (setting : Pairs) (c d : C) → C.parameter_gives position name entry setting c → C.parameter_gives position name entry setting d
        → c ≡ d) → (rules : Rules) (p : Problem) (setting : Pairs) (k : ℕ) → k ≤ length p.tree → (r s : Result (Table C) NodeStop)
        → NodesGive C.of_number C.number_of C.sum_gives C.change_gives C.parameter_gives rules p setting k r
        → NodesGive C.of_number C.number_of C.sum_gives C.change_gives C.parameter_gives rules p setting k s → r ≡ s }
{}
