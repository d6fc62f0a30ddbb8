//! The laws of operators.
ghost use Rattle.dcx_script_laws.specs.Differences.{HoldsForDifferences};
ghost use Rattle.dcx_script_laws.specs.Numbers.{DifferencesHaveSameNumbers};

/// `x - y` is `x + (-y)`, and `x >= y` is `y <= x`: for plain arrays, for all values that are no nodes, and for nodes.
pub fn differences()
    ensures { HoldsForDifferences }
{}

/// `x - y` and `x + (-y)` stand for the same numbers, also where one of them is a node and the other isn't.
pub fn numbers()
    ensures { DifferencesHaveSameNumbers }
{}
