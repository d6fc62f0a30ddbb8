//! The laws above the definitions of `specs/`. There is no code: each clause is a statement about all nodes.
ghost use Rattle.dcx_cert_collect.specs.Laws.{CollectedIsABound, StartsAreLagrangians, TotalsAreBounds, TotalsShowAnswers};

/// The total and what reaches the variables, times their values, are at most the coefficients at the start times the values of
/// their nodes, at every point.
pub fn collected_is_a_bound()
    ensures { CollectedIsABound }
{}

/// The coefficients at the start times the numbers of the nodes are the Lagrangian, or without the objective the penalty.
pub fn starts_are_lagrangians()
    ensures { StartsAreLagrangians }
{}

/// Where all that reaches the variables may, the total is at most the Lagrangian, or the penalty, at every point of the domain.
pub fn totals_are_bounds()
    ensures { TotalsAreBounds }
{}

/// What such a total shows: an optimal answer, or that no point is feasible. Nothing is asked of the calls but their terms, pairs
/// and slopes.
pub fn totals_show_answers()
    ensures { TotalsShowAnswers }
{}
