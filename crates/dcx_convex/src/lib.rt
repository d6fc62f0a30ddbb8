//! Disciplined convex programming over lists of nodes: what sign and curvature the rules give each node, which problems
//! they accept, and what follows of such a problem.
//!
//! Of a call nothing is known but its size, its sign and trend rules, its value and three laws. So the theorems hold for
//! every atom that keeps its laws, and a new one adds nothing to them. There is no code: each function of `laws` is a
//! law, whose clause is a statement about all problems. The crates above map their nodes to those of `specs/Nodes.antt`.
//!
//! The words stand in `specs/`: calls and their laws (`Calls`, `Atoms`, `Pairs`), nodes, values, the domain and fitting
//! settings (`Nodes`), the rules (`Rules`), acceptance, feasible points and convexity (`Problems`), the Lagrangian and
//! the three kinds of answers (`Answers`), reduced programs (`Reductions`) and certificates (`Certificates`).
//!
//! | what must hold | where |
//! |---|---|
//! | atoms, linear calls, products and quotients keep the laws of calls | `laws::calls_are_lawful` |
//! | value, sign and curvature are the only functions that meet each node's equation | `laws::nodes_are_told` |
//! | where a node stands, and what stands after it, doesn't matter | `laws::renumbering_changes_nothing`, `laws::pushing_changes_nothing` |
//! | the sign of a node is true of its value | `laws::signs_are_true` |
//! | an accepted problem is convex at every fitting setting | `laws::accepted_is_convex` |
//! | at one setting there is one kind of answer, and one optimal value | `laws::answers_agree` |
//! | what is accepted where parameters are affine is accepted | `laws::dpp_is_accepted` |
//! | what reaches no variable has one value at all points | `laws::constants_are_fixed` |
//! | in an accepted problem each node that is reached is convex or concave | `laws::reached_are_bent` |
//! | what stands for a node where the rows of a reduced program hold is beyond its value | `laws::forms_are_beyond` |
//! | a right answer to a reduced program is one to the problem | `laws::reductions_map_back` |
//! | a certificate shows an optimal answer, or that no point is feasible | `laws::certified_is_answered` |
//! | the test of what reaches a variable is right for each attribute | `laws::tested_are_in_dual_cone` |
//! | the rules compute, as on small problems | `laws::verdicts`, `specs/Examples.antt` |
//! | a whole small problem: its reduced program, the answer that maps back, and a certificate | `laws::least_abs` |
#![tactic(auto)]

pub mod laws;
