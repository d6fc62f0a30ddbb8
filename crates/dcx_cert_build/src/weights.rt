//! The weights of the atoms of a problem.
ghost use Rattle.std.specs.Prelude.{◌≡◌, ◌<◌, ◌^◌, ◌++◌, [], ◌∷◌, length, map, IfOk, IfErr, OnOk};
ghost use Rattle.dcx_lp_answer.specs.declared.answer.LpStatus.TheVariants as status;
ghost use Rattle.dcx_cert_sections.specs.Outlines.{rows_shown};
ghost use Rattle.dcx_graph.specs.Answers.{answer_stop};
ghost use Rattle.dcx_cert_build.specs.Weights.{numbers_for, node_numbers, atom_numbers};
ghost use Rattle.dcx_cert_build.specs.Built.{AreWeightsIn, StopsBuilding};

use crate::forming::{RowWeight, row_weights};
use dcx_answer::Site;
use dcx_arena::NodeId;
use dcx_cert_outline::outline_of_problem;
use dcx_cert_sections::{AtomRows, NodeWeights, Weights};
use dcx_frac::{Frac, Fracs};
use dcx_graph::{AnswerStop, Reduced};
use dcx_lp_answer::{LpAnswer, MultiplierStop};
use dcx_tree::Problem;
use std::alloc::{AllocError, Global};

/// The stop at the weight of a row.
fn answer_stop(stop: MultiplierStop) -> AnswerStop
    ensures { result ≡ answer_stop stop }
{
    match stop {
        MultiplierStop::Wide { row, passes } => AnswerStop::Wide(Site::Answer { row, passes }),
        MultiplierStop::Memory => AnswerStop::Memory,
    }
}

/// The numbers of the rows of the graph of a node, in order.
fn numbers_of(alloc: Global, rows: &[Option<RowWeight>], node: NodeId) -> Result<Fracs, AllocError>
    ensures { IfOk result (λ xs. xs ≡ numbers_for rows.now node.0) }
{
    let mut numbers = Vec::new(alloc);
    'rows: for row in rows {
        if let Some(weight) = *row {
            if weight.node.0 == node.0 {
                numbers.push(weight.number)?;
            }
        }
    }
    Ok(Fracs::from_vec(numbers))
}

/// Adds the numbers of the rows of the graph of a node.
fn push_weights(
    alloc: Global,
    weights: &mut Vec<NodeWeights>,
    rows: &[Option<RowWeight>],
    node: NodeId,
) -> Result<(), AllocError>
    ensures { OnOk result (weights.new.items ≡ weights.old.items ++ record { node = node; numbers = numbers_for rows.now node.0 } ∷ []) }
{
    let numbers = numbers_of(alloc, rows, node)?;
    weights.push(NodeWeights { node, numbers })?;
    Ok(())
}

/// For each of these atoms the numbers of the rows of its graph.
fn atom_weights(
    alloc: Global,
    atoms: &[AtomRows],
    rows: &[Option<RowWeight>],
) -> Result<Weights, AllocError>
    ensures { IfOk result (λ ws. map node_numbers ws ≡ map (atom_numbers rows.now) atoms.now) }
{
    let mut weights = Vec::with_capacity(alloc, atoms.len())?;
    'atoms: for atom in atoms {
        push_weights(alloc, &mut weights, rows, atom.node)?;
    }
    Ok(Weights::from_vec(weights))
}

/// The weights of the atoms of a problem that have a variable below them.
///
/// `Wide` exactly where the multiplier of a row of the graph of one of them passes 128 bits: the first one, with its row and its
/// first operation that passes.
pub(crate) fn weights_of(
    alloc: Global,
    problem: &Problem,
    reduced: &Reduced<Frac>,
    answer: &LpAnswer,
) -> Result<Weights, AnswerStop>
    requires noted { length answer.now.rows ≡ length reduced.now.program.rows }
    requires few { length answer.now.rows < 2 ^ 32 }
    requires formed { ¬ (answer.now.status ≡ status.Unbounded) }
    ensures made { IfOk result (AreWeightsIn problem.now reduced.now.program.origins answer.now) }
    ensures stops { IfErr result (StopsBuilding problem.now reduced.now.program.origins answer.now) }
{
    let outline = outline_of_problem(alloc, problem)?;
    let atoms = outline.atoms();
    let rows = match row_weights(alloc, atoms, reduced, answer) {
        Ok(rows) => rows,
        Err(stop) => {
            drop(outline);
            return Err(answer_stop(stop));
        }
    };
    match atom_weights(alloc, atoms, &rows) {
        Ok(weights) => {
            drop((outline, rows));
            Ok(weights)
        }
        Err(_) => {
            drop((outline, rows));
            Err(AnswerStop::Memory)
        }
    }
}
