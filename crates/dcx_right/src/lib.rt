//! When an answer to a problem is right, in the problem's own words; there is no code.
//!
//! An answer is shown by one point, some multipliers or one ray, and bounds of the Lagrangian over the domain. What users ask is of all
//! feasible points, and follows.
//!
//! Variables may be marked: the entries of an integer variable are to be whole, those of a boolean one 0 or 1. A whole point is
//! a feasible point whose marked entries are so, and a whole optimum one with the least minimized objective of them all. A box
//! bounds entries of variables by integers. A tree shows what whole points a box has: a leaf has multipliers of the
//! constraints and of the box's bounds, which bound the objective from below or show that no point of the box is feasible; a
//! node that isn't a leaf has a marked entry and an integer, with a tree for the points whose entry is at most that integer and
//! one for those whose entry is above it.
//!
//! A set of constraints is impossible where no point of the domain keeps them all. Where all constraints together are, they are gone
//! through in order, and each is left out for good where those that are left are still impossible together: what stays is the filter's
//! set. It is irreducible: no point keeps its constraints together, and some point keeps all but any one of them.
//!
//! The steepness of a node along a ray is how fast it goes far out: that of a variable is the ray's array, that of a call its value at
//! the steepness of its arguments, and what reaches no variable is level. A convex node rises by at most its steepness for each step,
//! from every point.
//!
//! | what must hold | where |
//! |---|---|
//! | no feasible point has a smaller minimized objective than an optimal one | `laws::optima_are_least` |
//! | where multipliers show that a problem is infeasible no point is feasible | `laws::infeasible_have_no_point` |
//! | where a ray shows that a problem is unbounded no number bounds the minimized objective of all feasible points from below | `laws::unbounded_have_no_least` |
//! | an answer is right at a setting | `specs/Answers.antt`: `IsRightFor` |
//! | an answer in whole numbers is right, with the tree that shows it | `specs/WholeAnswers.antt`: `IsRightFor` |
//! | either one speaks of the problem: its points have an array of its shape for each variable, in order, and its multipliers the shapes of the constraints | `specs/Answers.antt`: `IsRightAnswer`, `specs/WholeAnswers.antt`: `IsRightWhole` |
//! | what is told of the range of a parameter is right | `specs/Ranges.antt`: `HoldsOn` |
//! | what filtering the constraints finds is right: a feasible point exactly where there is one, and else the filter's set | `specs/Filters.antt`: `IsRightFor` |
//! | the set is told with multipliers and a gap that show that no point keeps it, 0 for all other constraints, and with a point for each of its constraints that keeps all others | `specs/Filters.antt`: `IsIrreducible` |
//! | whole points, whole optima, and that there is no whole point | `specs/Points.antt` |
//! | boxes, the box that has all whole points, and the two sides of a box | `specs/Boxes.antt` |
//! | trees, and when one shows its box | `specs/Trees.antt` |
//! | no whole point of a tree's box has an objective below the tree's value; without a value the box has no whole point | `laws::trees_show` |
//! | a tree is one with each smaller value too, and without a value one with any | `laws::trees_weaken` |
//! | the root box has all whole points | `laws::root_has_all` |
//! | a tree at the root box shows a whole optimum, or that there is no whole point | `laws::trees_show_optima`, `laws::trees_show_none` |
//! | at one setting there is one value of whole optima, and never one where there is no whole point | `laws::whole_answers_agree` |
//! | which points keep a set of constraints, which sets are impossible, and the filter's set | `specs/ConstraintSets.antt` |
//! | the filter's set is one, it is impossible, and it is not without any one of its constraints | `laws::filter_sets_are_one`, `laws::filter_sets_are_minimal` |
//! | which nodes of a problem reach no variable | `specs/Fixed.antt` |
//! | steepness, and which rays show that a problem is unbounded | `specs/Steepness.antt`, `specs/Rays.antt` |
//! | steepness is the only function that meets each node's equation | `laws::steepness_is_told` |
//! | atoms, linear calls, products and quotients keep the recession law of calls | `laws::calls_recede` |
//! | along a ray no convex node rises faster than its steepness, and no concave one slower | `laws::nodes_recede` |
//! | in an accepted problem the side of a product or a quotient whose value counts has one value at all points | `laws::values_are_fixed`, `laws::tree_values_are_fixed` |
//! | from a feasible point, along a ray whose steepness keeps the constraints and lowers the objective, a problem is unbounded | `laws::rays_are_unbounded`, `laws::rays_show` |
#![tactic(auto)]

pub mod laws;
