//! Where a problem breaks a rule, as a refusal of its script.
ghost use Rattle.std.specs.Prelude.{◌≡◌, Some};
ghost use Rattle.dcx_rules.specs.Sites.{IsFirst};
ghost use Rattle.dcx_front.specs.Checks.{site_place, IsRefusedFor};

use dcx_refusal::{Carried, Refusal, RefusalSource};
use dcx_rules::{Rule, RuleSite};
use dcx_shape::Place;
use dcx_tree::Problem;

/// Where the site that breaks its rule stands in the script.
fn place_of(problem: &Problem, site: RuleSite, rule: Rule) -> Place
    requires { IsFirst problem.now site rule }
    ensures { site_place problem.now site ≡ Some result }
{
    match site {
        RuleSite::Node(node) => problem.tree.place(node),
        RuleSite::Objective => problem.objective_place,
        RuleSite::Constraint(k) => problem.constraints.as_slice()[k as usize].place,
    }
}

/// The refusal of a problem whose first site that breaks a rule is this one.
pub(crate) fn not_dcp(problem: &Problem, site: RuleSite, rule: Rule) -> Refusal
    requires { IsFirst problem.now site rule }
    ensures { IsRefusedFor problem.now result }
{
    let place = place_of(problem, site, rule);
    Refusal::of(RefusalSource::Script, 19, place, Carried::Rule(rule))
}
