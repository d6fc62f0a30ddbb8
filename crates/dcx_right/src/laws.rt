//! The laws of right answers. There is no code: each clause is a statement about all problems and settings.
ghost use Rattle.dcx_right.specs.Laws.{OptimaAreLeast, InfeasibleHaveNoPoint, UnboundedHaveNoLeast, TreesShow, TreesWeaken, RootHasAll, TreesShowOptima, TreesShowNone, WholeAnswersAgree};
ghost use Rattle.dcx_right.specs.Laws.{FilterSetsAreMinimal, FilterSetsAreOne};
ghost use Rattle.dcx_convex.specs.Nodes.{Setting};
ghost use Rattle.dcx_tree.specs.declared.problem.Problem.{Problem};
ghost use Rattle.dcx_right.specs.RayLaws.{SteepnessIsTold, CallsRecede, NodesRecede, ValuesAreFixed, TreeValuesAreFixed, RaysAreUnbounded, RaysShow};

/// No feasible point has a smaller minimized objective than the value of an optimal answer.
pub fn optima_are_least()
    ensures { OptimaAreLeast }
{}

/// Where multipliers show that a problem is infeasible, no point is feasible.
pub fn infeasible_have_no_point()
    ensures { InfeasibleHaveNoPoint }
{}

/// Where a point and a ray show that a problem is unbounded, no number is at most the minimized objective of every feasible point.
pub fn unbounded_have_no_least()
    ensures { UnboundedHaveNoLeast }
{}

/// No whole point of a tree's box has an objective below the tree's value; where it has no value, the box has no whole point.
pub fn trees_show()
    ensures { TreesShow }
{}

/// A tree with a value is one with each smaller value, and a tree without a value is one with any.
pub fn trees_weaken()
    ensures { TreesWeaken }
{}

/// The root box has all whole points.
pub fn root_has_all()
    ensures { RootHasAll }
{}

/// A tree at the root box with the objective of a whole point shows that no whole point has a smaller one.
pub fn trees_show_optima()
    ensures { TreesShowOptima }
{}

/// A tree at the root box without a value shows that there is no whole point.
pub fn trees_show_none()
    ensures { TreesShowNone }
{}

/// At one setting all whole optima have one value, and where there is one there are whole points.
pub fn whole_answers_agree()
    ensures { (p : Problem) (s : Setting) → WholeAnswersAgree p s }
{}

/// The filter's set is impossible, and is not without any one of its constraints.
pub fn filter_sets_are_minimal()
    ensures { FilterSetsAreMinimal }
{}

/// A problem has one filter's set at a setting.
pub fn filter_sets_are_one()
    ensures { FilterSetsAreOne }
{}

/// Where arguments stand before their nodes, the steepness of each node is what its rule tells from that of its arguments, and nothing
/// else is.
pub fn steepness_is_told()
    ensures { SteepnessIsTold }
{}

/// Nonlinear calls, linear calls, products and quotients keep the recession law of calls.
pub fn calls_recede()
    ensures { CallsRecede }
{}

/// From a point along a ray, the value of a convex node is at most that at the point and its steepness for each step, and that of a
/// concave node at least.
pub fn nodes_recede()
    ensures { NodesRecede }
{}

/// In an accepted problem, of each product and quotient that is reached and reaches a variable, the side whose value counts reaches none:
/// its value is one at all points.
pub fn values_are_fixed()
    ensures { ValuesAreFixed }
{}

/// The same of a problem over a tree, each of whose nodes is reached.
pub fn tree_values_are_fixed()
    ensures { TreeValuesAreFixed }
{}

/// An accepted problem over lawful nodes is unbounded along each ray.
pub fn rays_are_unbounded()
    ensures { RaysAreUnbounded }
{}

/// An accepted problem over a tree is unbounded along each ray, at every fitting setting.
pub fn rays_show()
    ensures { RaysShow }
{}
