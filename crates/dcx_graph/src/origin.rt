//! Where the rows of a program come from.
ghost use Rattle.std.specs.Prelude.{◌≡◌, ◌++◌, map, IfOk, OnOk};
ghost use Rattle.dcx_graph.specs.Program.{entry_origin, graph_origin, origins_of};

use crate::constraint::ConstraintEntry;
use dcx_arena::NodeId;
use dcx_entries::FormedRow;
use dcx_linear::Coef;
use std::alloc::{AllocError, Global};

/// Where a row comes from.
#[derive(Clone, Copy)]
pub enum Origin {
    /// An entry of a constraint.
    Constraint {
        /// The constraint, counted from 0.
        constraint: u32,
        /// The entry, counted from 0.
        entry: u32,
    },
    /// A row of the graph of a node.
    Graph {
        /// The node.
        node: NodeId,
        /// The entry of the node to which the row belongs.
        entry: u32,
        /// The number of the row, counted from 0 among those of its entry.
        row: u32,
    },
}

/// Adds the origins of the rows of constraints, in order.
fn push_entries(origins: &mut Vec<Origin>, entries: &[ConstraintEntry]) -> Result<(), AllocError>
    ensures { OnOk result (origins.new.items ≡ origins.old.items ++ map entry_origin entries.now) }
{
    'entries: for entry in entries {
        origins.push(Origin::Constraint {
            constraint: entry.constraint,
            entry: entry.entry,
        })?;
    }
    Ok(())
}

/// Adds the origins of the rows of graphs, in order.
fn push_graph<C: Coef>(origins: &mut Vec<Origin>, graph: &[FormedRow<C>]) -> Result<(), AllocError>
    ensures { OnOk result (origins.new.items ≡ origins.old.items ++ map graph_origin graph.now) }
{
    'graph: for row in graph {
        origins.push(Origin::Graph {
            node: row.node,
            entry: row.entry,
            row: row.row,
        })?;
    }
    Ok(())
}

/// The origins of the rows of constraints, and then those of the rows of graphs.
pub(crate) fn row_origins<C: Coef>(
    alloc: Global,
    entries: &[ConstraintEntry],
    graph: &[FormedRow<C>],
) -> Result<Vec<Origin>, AllocError>
    ensures { IfOk result (λ v. v.items ≡ origins_of entries.now graph.now) }
{
    let mut origins = Vec::new(alloc);
    push_entries(&mut origins, entries)?;
    push_graph(&mut origins, graph)?;
    Ok(origins)
}
