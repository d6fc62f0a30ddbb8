//! The rows that put one unknown beyond the same entry of some arguments.
ghost use Rattle.std.specs.Prelude.{◌≡◌, ◌++◌, IfOk, OnOk, map, replicate};
ghost use Rattle.dcx_atom.specs.Arrays.{list_below};
ghost use Rattle.dcx_atom.specs.Bounding.{unknown_form};
ghost use Rattle.dcx_atom.specs.Graph.{form_term, placed_row, rows_below};
ghost use Rattle.dcx_elem.specs.Rows.{piece_rows};

use dcx_atom::{
    AuxKind, Bend, Graph, GraphRow, GraphRows, GraphTerm, Operand, bounding_row, each_alone,
    of_kind,
};
use dcx_frac::Frac;
use std::alloc::{AllocError, Global};

/// A number times an argument, entry by entry.
#[derive(Clone, Copy)]
pub struct Piece {
    /// The argument, counted from 0.
    pub argument: u32,
    /// By how much its entries are multiplied.
    pub coefficient: Frac,
}

/// Adds the rows that put unknown `entry` beyond entry `entry` of each piece.
fn push_rows(
    alloc: Global,
    rows: &mut Vec<GraphRow>,
    bend: Bend,
    pieces: &[Piece],
    entry: u32,
) -> Result<(), AllocError>
    ensures { OnOk result (map placed_row rows.new.items ≡ map placed_row rows.old.items ++ map (λ row. record { entry = entry; row = row }) (piece_rows bend pieces.now entry)) }
{
    for piece in pieces {
        let term = GraphTerm {
            operand: Operand::Argument {
                argument: piece.argument,
                entry,
            },
            coefficient: piece.coefficient,
        };
        rows.push(bounding_row(alloc, bend, entry, entry, term)?)?;
    }
    Ok(())
}

/// The graph of a call whose result entries are each bounded by the same entry of some pieces.
pub fn entrywise_graph(
    alloc: Global,
    bend: Bend,
    kind: AuxKind,
    size: u32,
    pieces: &[Piece],
) -> Result<Graph, AllocError>
    ensures kinds { IfOk result (λ g. g.aux ≡ replicate size kind) }
    ensures rows { IfOk result (λ g. map placed_row g.rows ≡ rows_below size (piece_rows bend pieces.now)) }
    ensures results { IfOk result (λ g. map (map form_term) g.results ≡ list_below size unknown_form) }
{
    let mut rows = Vec::new(alloc);
    for entry in 0..size {
        push_rows(alloc, &mut rows, bend, pieces, entry)?;
    }
    Ok(Graph {
        aux: of_kind(alloc, kind, size)?,
        rows: GraphRows::from_vec(rows),
        results: each_alone(alloc, size)?,
    })
}
