//! Where a problem first breaks a rule, by the judgements of its nodes.
ghost use Rattle.std.specs.Prelude.{◌≡◌, ◌^◌, ◌<◌, true, length, IfNone, IfSome, IsNone, ◌↔◌};
ghost use Rattle.std.specs.List.{list_all};
ghost use Rattle.dcx_convex.specs.Problems.{may_be_objective, may_be_sides};
ghost use Rattle.dcx_tree.specs.Meaning.{sense_of, relation_of};
ghost use Rattle.dcx_rules.specs.Judgements.{judgement_of};
ghost use Rattle.dcx_rules.specs.Sites.{sense_rule, kind_rule};
ghost use Rattle.dcx_rules.specs.Accepted.{accepts, AreSides, IsBroken, stands, IsBreach};

use crate::fault::{Rule, RuleSite};
use crate::judgement::Judgement;
use dcx_tree::{Constraint, Kind, Problem, Sense};

/// Where a rule is broken.
#[derive(Clone, Copy)]
pub struct Breach {
    pub site: RuleSite,
    pub rule: Rule,
}

/// Where the objective, or else the first constraint, breaks its rule, by these judgements of all nodes.
pub fn first_breach(problem: &Problem, judgements: &[Judgement]) -> Option<Breach>
    requires { length judgements.now ≡ length problem.now.tree }
    ensures none { IsNone result ↔ (accepts problem.now judgements.now ≡ true) }
    ensures some { IfSome result (IsBreach problem.now judgements.now) }
{
    let objective = judgements[problem.objective.0 as usize];
    if !may_be_objective(problem.sense, objective) {
        return Some(Breach {
            site: RuleSite::Objective,
            rule: rule_of_sense(problem.sense),
        });
    }
    first_constraint(problem.constraints.as_slice(), judgements)
}

/// The first constraint that breaks its rule.
fn first_constraint(constraints: &[Constraint], judgements: &[Judgement]) -> Option<Breach>
    requires sides { AreSides constraints.now (length judgements.now) }
    requires few { length constraints.now < 2 ^ 32 }
    ensures none { IfNone result (list_all (stands judgements.now) constraints.now ≡ true) }
    ensures some { IfSome result (IsBroken constraints.now judgements.now) }
{
    for (k, constraint) in constraints.iter().enumerate() {
        let left = judgements[constraint.left.0 as usize];
        let right = judgements[constraint.right.0 as usize];
        if !may_be_sides(constraint.kind, left, right) {
            return Some(Breach {
                site: RuleSite::Constraint(k as u32),
                rule: rule_of_kind(constraint.kind),
            });
        }
    }
    None
}

/// Whether what is judged so may be the objective.
fn may_be_objective(sense: Sense, g: Judgement) -> bool
    ensures { result ≡ may_be_objective (sense_of sense) (judgement_of g) }
{
    match sense {
        Sense::Minimize => g.convex,
        Sense::Maximize => g.concave,
    }
}

/// Whether what is judged so may be the two sides of a constraint.
fn may_be_sides(kind: Kind, left: Judgement, right: Judgement) -> bool
    ensures { result ≡ may_be_sides (relation_of kind) (judgement_of left) (judgement_of right) }
{
    match kind {
        Kind::AtMost => left.convex && right.concave,
        Kind::Equal => (left.convex && left.concave) && (right.convex && right.concave),
    }
}

/// The rule of the objective.
fn rule_of_sense(sense: Sense) -> Rule
    ensures { result ≡ sense_rule sense }
{
    match sense {
        Sense::Minimize => Rule::Minimize,
        Sense::Maximize => Rule::Maximize,
    }
}

/// The rule of a constraint.
fn rule_of_kind(kind: Kind) -> Rule
    ensures { result ≡ kind_rule kind }
{
    match kind {
        Kind::AtMost => Rule::AtMost,
        Kind::Equal => Rule::Equal,
    }
}
