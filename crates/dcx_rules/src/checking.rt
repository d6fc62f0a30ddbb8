//! Whether the rules accept a problem.
ghost use Rattle.std.specs.Prelude.{◌≡◌, ◌^◌, ◌<◌, map, length, Some, IfOk, IfErr, OnOk};
ghost use Rattle.dcx_convex.specs.Nodes.{Setting};
ghost use Rattle.dcx_tree.specs.Meaning.{Fits, IsAccepted, IsConvex};
ghost use Rattle.dcx_rules.specs.Sites.{IsFaultOf};
ghost use Rattle.dcx_rules.specs.Verdicts.{IsVerdictOf, AreTrueOf};
ghost use Rattle.dcx_rules.specs.Accepted.{finding_of, IsFirstLost};

use crate::acceptance::first_breach;
use crate::curvature::curvature_of;
use crate::fault::{Rule, RuleFault, RuleSite};
use crate::judgement::{Judgement, Rules};
use crate::judgements::judgements;
use crate::verdict::{Finding, Verdict};
use dcx_tree::{NodeId, Problem};
use std::alloc::Global;

/// The signs and curvatures of the nodes of a problem, what the rules say of each where parameters are affine, and whether
/// the problem is accepted also then.
///
/// `NotDcp` where the rules of disciplined convex programming don't accept the problem. It names the first node that has
/// no curvature and whose arguments all have one, by the rule `Composition`; where there is none the objective, by the rule
/// `Minimize` or `Maximize`, or else the first constraint that breaks its rule, `Equal` or `AtMost`.
pub fn check(alloc: Global, problem: &Problem) -> Result<Verdict, RuleFault>
    ensures accepted { OnOk result (IsAccepted problem.now) }
    ensures convex { OnOk result ((s : Setting) → Fits problem.now s → IsConvex problem.now s) }
    ensures verdict { IfOk result (IsVerdictOf problem.now) }
    ensures truth { IfOk result (λ v. (s : Setting) → Fits problem.now s → AreTrueOf problem.now s v) }
    ensures fault { IfErr result (IsFaultOf problem.now) }
{
    let plain = judgements(alloc, problem, Rules::Plain)?;
    let nodes = findings(alloc, &plain)?;
    if let Some(breach) = first_breach(problem, &plain) {
        return Err(RuleFault::NotDcp {
            site: breach.site,
            rule: breach.rule,
        });
    }
    let parametrized = judgements(alloc, problem, Rules::Parametrized)?;
    let dpp = first_breach(problem, &parametrized).is_none();
    Ok(Verdict::of(nodes, parametrized, dpp))
}

/// The sign and the curvature of each node; or the first node that has no curvature.
fn findings(alloc: Global, judgements: &[Judgement]) -> Result<Vec<Finding>, RuleFault>
    requires { length judgements.now < 2 ^ 32 }
    ensures ok { IfOk result (λ v. map Some v.items ≡ map finding_of judgements.now) }
    ensures err { IfErr result (IsFirstLost judgements.now) }
{
    let mut findings = Vec::new(alloc);
    for (i, judgement) in judgements.iter().enumerate() {
        match curvature_of(*judgement) {
            Some(curvature) => findings.push(Finding {
                sign: judgement.sign,
                curvature,
                reaches_variable: !judgement.fixed,
                reaches_parameter: !judgement.unparametrized,
            })?,
            None => {
                return Err(RuleFault::NotDcp {
                    site: RuleSite::Node(NodeId(i as u32)),
                    rule: Rule::Composition,
                });
            }
        }
    }
    Ok(findings)
}
