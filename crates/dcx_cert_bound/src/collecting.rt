//! What is collected of the multipliers by the weights.
ghost use Rattle.std.specs.Prelude.{◌≡◌, ◌<◌, [], Ok, All, IfOk, IfErr, OnOk, length};
ghost use Rattle.dcx_cert_collect.specs.Multipliers.{AreDuals};
ghost use Rattle.dcx_cert_collect.specs.Pass.{IsOrMemory, HaveWeights, HaveFractions, IsGiven};
ghost use Rattle.dcx_cert_bound.specs.Weights.{indexed_at, weights_at};
ghost use Rattle.dcx_cert_bound.specs.Collecting.{collected, fault_of, IsFaultOrMemory};

use crate::weights::{Indexed, index_of};
use dcx_answer::CertFault;
use dcx_atom::Array;
use dcx_cert_collect::{CollectStop, Collected, Given, collect, start_table, starts_of};
use dcx_cert_sections::NodeWeights;
use dcx_tree::Problem;
use std::alloc::Global;

/// The fault that tells a stop.
fn fault_of(stop: CollectStop) -> CertFault
    ensures { result ≡ fault_of stop }
{
    match stop {
        CollectStop::Slope {
            node,
            entry,
            stated,
            found,
        } => CertFault::Slope {
            node,
            entry,
            stated,
            found,
        },
        CollectStop::Passes(passes) => CertFault::Wide(passes),
        CollectStop::Memory => CertFault::Memory,
    }
}

/// All that is collected, where it is told where the nodes begin and where their weights stand.
fn collect_at(
    alloc: Global,
    problem: &Problem,
    starts: &[u32],
    values: &[Option<Array>],
    duals: &[Array],
    weights: &Indexed,
    with_objective: bool,
) -> Result<Collected, CollectStop>
    requires given { IsGiven problem.now.tree starts.now values.now }
    requires duals { AreDuals problem.now duals.now }
    requires weights { HaveWeights problem.now.tree values.now (indexed_at weights.now.index.now weights.now.weights.now) }
    ensures ok { IfOk result (λ k. collected problem.now values.now duals.now (indexed_at weights.now.index.now weights.now.weights.now) with_objective
        ≡ Ok (record { below = []; reached = k.reached; total = k.total })) }
    ensures fractions { OnOk result (HaveFractions problem.now.tree values.now (indexed_at weights.now.index.now weights.now.weights.now)) }
    ensures stop { IfErr result (IsOrMemory (collected problem.now values.now duals.now (indexed_at weights.now.index.now weights.now.weights.now) with_objective)) }
{
    let table = start_table(alloc, problem, starts, with_objective, duals)?;
    let given = Given {
        tree: &problem.tree,
        starts,
        values,
    };
    collect(alloc, &given, weights, table)
}

/// All that is collected, or why it isn't.
pub(crate) fn collect_all(
    alloc: Global,
    problem: &Problem,
    values: &[Option<Array>],
    duals: &[Array],
    weights: &[NodeWeights],
    with_objective: bool,
) -> Result<Collected, CertFault>
    requires count { length values.now ≡ length problem.now.tree }
    requires duals { AreDuals problem.now duals.now }
    requires nodes { All (λ w. w.node.0 < length problem.now.tree) weights.now }
    requires weights { HaveWeights problem.now.tree values.now (weights_at weights.now) }
    ensures ok { IfOk result (λ k. collected problem.now values.now duals.now (weights_at weights.now) with_objective ≡ Ok (record { below = []; reached = k.reached; total = k.total })) }
    ensures fractions { OnOk result (HaveFractions problem.now.tree values.now (weights_at weights.now)) }
    ensures fault { IfErr result (IsFaultOrMemory (collected problem.now values.now duals.now (weights_at weights.now) with_objective)) }
{
    let starts = starts_of(alloc, &problem.tree)?;
    let index = index_of(alloc, problem.tree.nodes(), weights)?;
    let indexed = Indexed {
        weights,
        index: &index,
    };
    match collect_at(
        alloc,
        problem,
        &starts,
        values,
        duals,
        &indexed,
        with_objective,
    ) {
        Ok(collected) => Ok(collected),
        Err(stop) => Err(fault_of(stop)),
    }
}
