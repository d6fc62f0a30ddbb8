//! The entries of the constraints of a problem, each of which has a row.
ghost use Rattle.std.specs.Prelude.{◌≡◌, ◌<◌, ◌^◌, ◌++◌, length, IfOk, OnOk};
ghost use Rattle.dcx_graph.specs.Program.{entries_in, entries_from};

use dcx_arena::NodeId;
use dcx_linear::RowKind;
use dcx_postsolve::row_kind;
use dcx_tree::Constraint;
use std::alloc::{AllocError, Global};

/// An entry of a constraint.
#[derive(Clone, Copy)]
pub(crate) struct ConstraintEntry {
    /// The constraint, counted from 0.
    pub(crate) constraint: u32,
    /// The entry, counted from 0.
    pub(crate) entry: u32,
    /// How left minus right stands to 0.
    pub(crate) kind: RowKind,
    /// The node on the left.
    pub(crate) left: NodeId,
    /// The node on the right.
    pub(crate) right: NodeId,
}

/// Adds the entries of constraint `index`, in row-major order.
fn push_constraint(
    entries: &mut Vec<ConstraintEntry>,
    index: u32,
    constraint: &Constraint,
) -> Result<(), AllocError>
    ensures { OnOk result (entries.new.items ≡ entries.old.items ++ entries_in index constraint.now) }
{
    'entries: for entry in 0..constraint.shape.size() {
        entries.push(ConstraintEntry {
            constraint: index,
            entry,
            kind: row_kind(constraint.kind),
            left: constraint.left,
            right: constraint.right,
        })?;
    }
    Ok(())
}

/// The entries of the constraints, in order.
pub(crate) fn constraint_entries(
    alloc: Global,
    constraints: &[Constraint],
) -> Result<Vec<ConstraintEntry>, AllocError>
    requires { length constraints.now < 2 ^ 32 }
    ensures { IfOk result (λ v. v.items ≡ entries_from 0 constraints.now) }
{
    let mut entries = Vec::new(alloc);
    'constraints: for (index, constraint) in constraints.iter().enumerate() {
        push_constraint(&mut entries, index as u32, constraint)?;
    }
    Ok(entries)
}
