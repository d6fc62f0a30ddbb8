//! An accepted problem, and what is found of it.
ghost use Rattle.dcx_rules.specs.Verdicts.{IsVerdictOf};
ghost use Rattle.dcx_front.specs.Checks.{IsFoundOf};

use crate::counts::{constraint_entries, parameter_entries, variable_entries};
use dcx_elab::Work;
use dcx_refusal::Checked;
use dcx_rules::Verdict;
use dcx_tree::Problem;

/// An accepted problem with what stands beside it.
#[derive(Drop)]
pub struct Accepted {
    /// What the script stands for: the problem, the setting of each solve, and that at the end.
    pub work: Work,
    /// What is found of the nodes of the problem.
    pub verdict: Verdict,
}

/// What is found of a problem with this verdict.
fn found(problem: &Problem, verdict: &Verdict) -> Checked
    requires { IsVerdictOf problem.now verdict.now }
    ensures { IsFoundOf problem.now result }
{
    let variables = problem.variables.as_slice();
    let parameters = problem.parameters.as_slice();
    let constraints = problem.constraints.as_slice();
    Checked {
        sense: problem.sense,
        sign: verdict.sign(problem.objective),
        curvature: verdict.curvature(problem.objective),
        dpp: verdict.dpp(),
        variables: variables.len() as u64,
        variable_entries: variable_entries(variables),
        parameters: parameters.len() as u64,
        parameter_entries: parameter_entries(parameters),
        constraints: constraints.len() as u64,
        constraint_entries: constraint_entries(constraints),
    }
}

impl Accepted {
    /// What a check tells of the problem.
    pub fn checked(&self) -> Checked
        requires { IsVerdictOf self.now.work.problem self.now.verdict }
        ensures { IsFoundOf self.now.work.problem result }
    {
        found(&self.work.problem, &self.verdict)
    }
}
