//! The judgements of all nodes of a problem, each from those of its arguments.
ghost use Rattle.std.specs.Prelude.{◌≡◌, ◌<◌, map, length, Some, All, IfOk, slice_get};
ghost use Rattle.dcx_arena.specs.Nodes.{positions};
ghost use Rattle.dcx_rules.specs.Judgements.{rules_of, AreJudgements};

use crate::judgement::{Judgement, Rules, judge};
use dcx_tree::{NodeId, Problem};
use std::alloc::{AllocError, Global};

/// What the rules say of each node, in order.
pub fn judgements(
    alloc: Global,
    problem: &Problem,
    rules: Rules,
) -> Result<Vec<Judgement>, AllocError>
    ensures { IfOk result (λ v. AreJudgements (rules_of rules) problem.now v.items) }
{
    let mut judgements = Vec::new(alloc);
    for i in 0..problem.tree.nodes() {
        let ids = problem.tree.args(alloc, NodeId(i))?;
        let args = judgements_at(alloc, &judgements, &ids)?;
        let call = problem.tree.call(NodeId(i));
        let judgement = judge(alloc, rules, call, &args)?;
        judgements.push(judgement)?;
    }
    Ok(judgements)
}

/// The judgements of these nodes.
fn judgements_at(
    alloc: Global,
    judgements: &[Judgement],
    ids: &[NodeId],
) -> Result<Vec<Judgement>, AllocError>
    requires { All (λ a. a < length judgements.now) (positions ids.now) }
    ensures { IfOk result (λ v. map Some v.items ≡ map (slice_get judgements.now) (positions ids.now)) }
{
    let mut chosen = Vec::new(alloc);
    for id in ids {
        chosen.push(judgements[id.0 as usize])?;
    }
    Ok(chosen)
}
