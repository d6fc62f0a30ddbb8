//! The atoms of a problem that have a variable below them, with their rows.
ghost use Rattle.std.specs.Prelude.{◌≡◌, ◌∷◌, [], ◌++◌, ◌<◌, map, length, IfOk, OnOk, MatchOption, slice_get};
ghost use Rattle.std.specs.List.{flat_map, range_with_len};
ghost use Rattle.dcx_cert_sections.specs.Outlines.{rows_shown};
ghost use Rattle.dcx_convex.specs.Certificates.{is_fixed};
ghost use Rattle.dcx_tree.specs.Meaning.{convex_problem};
ghost use Rattle.dcx_cert_outline.specs.Drawn.{AreFixed, atoms_if, atoms_at};

use dcx_cert_sections::AtomRows;
use dcx_tree::{NodeId, Problem};
use dcx_unknowns::node_graph;
use std::alloc::{AllocError, Global};

/// A number of rows. No memory holds more of them than the type does.
fn count_of(rows: usize) -> Result<u32, AllocError>
    ensures { IfOk result (λ n. n ≡ rows) }
{
    match u32::try_from(rows) {
        Ok(count) => Ok(count),
        Err(_) => Err(AllocError),
    }
}

/// The number of rows of an atom's graph; `None` of any other call.
fn atom_rows(alloc: Global, problem: &Problem, node: NodeId) -> Result<Option<u32>, AllocError>
    requires { node.0 < length problem.now.tree }
    ensures { IfOk result (λ o. MatchOption o (atoms_if problem.now.tree node.0 (slice_get problem.now.tree node.0) ≡ [])
        (λ rows. atoms_if problem.now.tree node.0 (slice_get problem.now.tree node.0) ≡ (node.0, rows) ∷ [])) }
{
    match node_graph(alloc, problem, node)? {
        Some(graph) => Ok(Some(count_of(graph.rows.as_slice().len())?)),
        None => Ok(None),
    }
}

/// Adds a node, where it is an atom that has a variable below it.
fn push_atom(
    alloc: Global,
    problem: &Problem,
    fixed: bool,
    node: NodeId,
    atoms: &mut Vec<AtomRows>,
) -> Result<(), AllocError>
    requires there { node.0 < length problem.now.tree }
    requires told { fixed ≡ is_fixed (convex_problem problem.now).nodes node.0 }
    ensures { OnOk result (map rows_shown atoms.new.items ≡ map rows_shown atoms.old.items ++ atoms_at problem.now node.0) }
{
    if fixed {
        return Ok(());
    }
    match atom_rows(alloc, problem, node)? {
        Some(rows) => {
            atoms.push(AtomRows { node, rows })?;
            Ok(())
        }
        None => Ok(()),
    }
}

/// The atoms of a problem that have a variable below them, in the order of their nodes.
pub(crate) fn atoms_of(
    alloc: Global,
    problem: &Problem,
    fixed: &[bool],
) -> Result<Vec<AtomRows>, AllocError>
    requires { AreFixed problem.now fixed.now (length problem.now.tree) }
    ensures { IfOk result (λ v. map rows_shown v.items ≡ flat_map (atoms_at problem.now) (range_with_len 0 (length problem.now.tree))) }
{
    let mut atoms = Vec::new(alloc);
    'nodes: for i in 0..problem.tree.nodes() {
        push_atom(alloc, problem, fixed[i as usize], NodeId(i), &mut atoms)?;
    }
    Ok(atoms)
}
