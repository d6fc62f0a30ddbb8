//! The graphs of the nodes of a problem: their auxiliary unknowns and their rows.
ghost use Rattle.std.specs.Prelude.{◌≡◌, ◌<◌, ◌++◌, true, length, map, IfOk, OnOk, slice_get, sum_by};
ghost use Rattle.dcx_shape.specs.Shape.{sides_of};
ghost use Rattle.dcx_arena.specs.Nodes.{positions, args_at, sides_at};
ghost use Rattle.dcx_linear.specs.Size.{columns_for, capped};
ghost use Rattle.dcx_unknowns.specs.Layout.{marked, aux_if, rows_if, IsNodeGraph, aux_kind, aux_below, rows_counted};

use crate::size::Size;
use dcx_atom::{Atom, AuxKind, Graph};
use dcx_linear::{UnknownKind, capped_length};
use dcx_shape::Shape;
use dcx_tree::{Call, NodeId, Problem};
use std::alloc::{AllocError, Global};

/// The graph of a node: that of an atom, and `None` of any other call.
pub fn node_graph(
    alloc: Global,
    problem: &Problem,
    node: NodeId,
) -> Result<Option<Graph>, AllocError>
    requires { node.0 < length problem.now.tree }
    ensures { IfOk result (IsNodeGraph problem.now.tree node.0) }
{
    let shapes = arg_shapes(alloc, problem, node)?;
    match problem.tree.call(node) {
        Call::Atom(atom) => Ok(Some(atom.graph(alloc, &shapes)?)),
        _ => Ok(None),
    }
}

/// The shapes of the arguments of a node.
fn arg_shapes(alloc: Global, problem: &Problem, node: NodeId) -> Result<Vec<Shape>, AllocError>
    requires { node.0 < length problem.now.tree }
    ensures { IfOk result (λ v. map sides_of v.items ≡ map (sides_at problem.now.tree) (args_at problem.now.tree node.0)) }
{
    let ids = problem.tree.args(alloc, node)?;
    problem.tree.shapes_of(alloc, &ids)
}

/// The kind of the unknown of a program that stands for an auxiliary unknown.
fn aux_kind(kind: AuxKind) -> UnknownKind
    ensures { result ≡ aux_kind kind }
{
    match kind {
        AuxKind::Free => UnknownKind::Free,
        AuxKind::Nonneg => UnknownKind::Nonneg,
    }
}

/// The columns of auxiliary unknowns, or 4,294,967,295 where they are more.
fn aux_columns(kinds: &[AuxKind]) -> u32
    ensures { result ≡ capped (sum_by columns_for (map aux_kind kinds.now)) }
{
    let mut count = 0u32;
    'kinds: for kind in kinds {
        count = count.saturating_add(aux_kind(*kind).columns());
    }
    count
}

/// The rows of the graph of a node, and the columns of its auxiliary unknowns.
fn node_size(alloc: Global, problem: &Problem, node: NodeId) -> Result<Size, AllocError>
    requires { node.0 < length problem.now.tree }
    ensures rows { IfOk result (λ s. s.rows ≡ capped (length (rows_if problem.now.tree true (slice_get problem.now.tree node.0)))) }
    ensures columns { IfOk result (λ s. s.columns ≡ capped (sum_by columns_for (map aux_kind (aux_if problem.now.tree true (slice_get problem.now.tree node.0))))) }
{
    match node_graph(alloc, problem, node)? {
        Some(graph) => Ok(Size {
            rows: capped_length(graph.rows.as_slice().len()),
            columns: aux_columns(graph.aux.as_slice()),
        }),
        None => Ok(Size {
            rows: 0,
            columns: 0,
        }),
    }
}

/// The rows of the graphs of the nodes that are reduced, and the columns of their auxiliary unknowns.
pub(crate) fn graph_size(
    alloc: Global,
    problem: &Problem,
    reduced: &[bool],
) -> Result<Size, AllocError>
    requires { length reduced.now ≡ length problem.now.tree }
    ensures rows { IfOk result (λ s. s.rows ≡ capped (rows_counted problem.now.tree (marked reduced.now) (length problem.now.tree))) }
    ensures columns { IfOk result (λ s. s.columns ≡ capped (sum_by columns_for (map aux_kind (aux_below problem.now.tree (marked reduced.now) (length problem.now.tree))))) }
{
    let mut rows = 0u32;
    let mut columns = 0u32;
    'nodes: for i in 0..problem.tree.nodes() {
        if reduced[i as usize] {
            let own = node_size(alloc, problem, NodeId(i))?;
            rows = rows.saturating_add(own.rows);
            columns = columns.saturating_add(own.columns);
        }
    }
    Ok(Size { rows, columns })
}

/// Adds the kinds of auxiliary unknowns.
fn push_aux(kinds: &mut Vec<UnknownKind>, aux: &[AuxKind]) -> Result<(), AllocError>
    ensures { OnOk result (kinds.new.items ≡ kinds.old.items ++ map aux_kind aux.now) }
{
    'aux: for kind in aux {
        kinds.push(aux_kind(*kind))?;
    }
    Ok(())
}

/// Adds the kinds of the auxiliary unknowns of a node.
fn push_node(
    alloc: Global,
    kinds: &mut Vec<UnknownKind>,
    problem: &Problem,
    node: NodeId,
) -> Result<(), AllocError>
    requires { node.0 < length problem.now.tree }
    ensures { OnOk result (kinds.new.items ≡ kinds.old.items ++ map aux_kind (aux_if problem.now.tree true (slice_get problem.now.tree node.0))) }
{
    match node_graph(alloc, problem, node)? {
        Some(graph) => push_aux(kinds, graph.aux.as_slice()),
        None => Ok(()),
    }
}

/// Adds the kinds of the auxiliary unknowns of the nodes that are reduced, in order.
pub(crate) fn push_graphs(
    alloc: Global,
    kinds: &mut Vec<UnknownKind>,
    problem: &Problem,
    reduced: &[bool],
) -> Result<(), AllocError>
    requires { length reduced.now ≡ length problem.now.tree }
    ensures { OnOk result (kinds.new.items ≡ kinds.old.items ++ map aux_kind (aux_below problem.now.tree (marked reduced.now) (length problem.now.tree))) }
{
    'nodes: for i in 0..problem.tree.nodes() {
        if reduced[i as usize] {
            push_node(alloc, kinds, problem, NodeId(i))?;
        }
    }
    Ok(())
}
