//! The weights of the rows of a program.
ghost use Rattle.std.specs.Prelude.{◌≡◌, nat_eq, ◌<◌, ◌^◌, length, map, Ok, IfOk, IfErr};
ghost use Rattle.std.specs.List.{list_any};
ghost use Rattle.dcx_lp_answer.specs.Multipliers.{passing_from, StopsAt};
ghost use Rattle.dcx_cert_sections.specs.Outlines.{rows_shown};
ghost use Rattle.dcx_cert_build.specs.Weights.{weight_of, row_weight, row_weights};

use dcx_arena::NodeId;
use dcx_cert_sections::AtomRows;
use dcx_frac::{Frac, Passes};
use dcx_graph::{Origin, Reduced};
use dcx_linear::RowKind;
use dcx_lp_answer::{LpAnswer, LpStatus, MultiplierStop, RowNote, multiplier};
use std::alloc::Global;

/// The weight of a row of the graph of a node.
#[derive(Clone, Copy)]
pub(crate) struct RowWeight {
    /// The node.
    pub(crate) node: NodeId,
    /// The number.
    pub(crate) number: Frac,
}

/// Whether a node is that of one of these atoms.
fn is_listed(atoms: &[AtomRows], node: NodeId) -> bool
    ensures { result ≡ list_any (λ a. nat_eq a.node.0 node.0) atoms.now }
{
    atoms.iter().any(|atom| atom.node.0 == node.0)
}

/// The weight of a row of the graph of a node, whose multiplier is formed.
fn weight_of(node: NodeId, multiplier: Result<Frac, Passes>) -> Result<Option<RowWeight>, Passes>
    ensures { result ≡ weight_of node multiplier }
{
    match multiplier {
        Ok(number) => Ok(Some(RowWeight { node, number })),
        Err(passes) => Err(passes),
    }
}

/// The weight of a row that comes from here, of which this is kept, where the row is one of the graph of one of these atoms.
fn row_weight(
    atoms: &[AtomRows],
    status: LpStatus,
    origin: Origin,
    note: &RowNote,
) -> Result<Option<RowWeight>, Passes>
    ensures { result ≡ row_weight (map rows_shown atoms.now) status origin note.now }
{
    match origin {
        Origin::Constraint { .. } => Ok(None),
        Origin::Graph { node, .. } => {
            if is_listed(atoms, node) {
                weight_of(node, multiplier(status, RowKind::AtMost, note))
            } else {
                Ok(None)
            }
        }
    }
}

/// For each row of a program the weight that it has.
///
/// `Wide` exactly where the multiplier of a row with a weight passes 128 bits: the first one, with its row and its first operation
/// that passes.
pub(crate) fn row_weights(
    alloc: Global,
    atoms: &[AtomRows],
    reduced: &Reduced<Frac>,
    answer: &LpAnswer,
) -> Result<Vec<Option<RowWeight>>, MultiplierStop>
    requires noted { length answer.now.rows ≡ length reduced.now.program.rows }
    requires few { length answer.now.rows < 2 ^ 32 }
    ensures made { IfOk result (λ w. map Ok w.items ≡ row_weights (map rows_shown atoms.now) answer.now.status reduced.now.program.origins answer.now.rows) }
    ensures stops { IfErr result (λ e. StopsAt e (passing_from 0 (row_weights (map rows_shown atoms.now) answer.now.status reduced.now.program.origins answer.now.rows))) }
{
    let mut weights = Vec::new(alloc);
    'rows: for (row, note) in answer.rows.as_slice().iter().enumerate() {
        match row_weight(atoms, answer.status, reduced.origin(row as u32), note) {
            Ok(weight) => weights.push(weight)?,
            Err(passes) => {
                return Err(MultiplierStop::Wide {
                    row: row as u32,
                    passes,
                });
            }
        }
    }
    Ok(weights)
}
