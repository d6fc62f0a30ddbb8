//! The layout of a program: the kinds of its unknowns, and how many rows and columns there are.
ghost use Rattle.std.specs.Prelude.{◌≡◌, length, IfOk, IfErr};
ghost use Rattle.dcx_convex.specs.Rules.{Rules};
ghost use Rattle.dcx_unknowns.specs.Layout.{marked, AreReduced, kinds_with, IsLayout, IsLayoutStop};

use crate::graph::push_graphs;
use crate::size::program_size;
use crate::stop::LayoutStop;
use crate::variable::push_kinds;
use dcx_linear::{UnknownKind, UnknownKinds};
use dcx_tree::Problem;
use std::alloc::{AllocError, Global};

/// The unknowns, rows and columns of a program of at most 600 rows and 2,400 columns.
#[derive(Drop)]
pub struct Layout {
    /// The kinds of the unknowns: those of the variables, then the auxiliary ones.
    pub kinds: UnknownKinds,
    /// How many rows there are.
    pub rows: u32,
    /// How many columns there are: those of the unknowns, and a slack for each inequality.
    pub columns: u32,
}

/// The layout of the program of a problem, where `reduced` tells of each node whether it is reduced by the rules.
///
/// `TooLarge` exactly where there are over 600 rows or 2,400 columns. They are counted first, and no kind is held till then.
pub fn lay_out(alloc: Global, problem: &Problem, reduced: &[bool]) -> Result<Layout, LayoutStop>
    requires { length reduced.now ≡ length problem.now.tree }
    ensures ok { IfOk result (λ l. (rules : Rules) → AreReduced rules problem.now reduced.now → IsLayout rules problem.now l) }
    ensures stop { IfErr result (λ e. (rules : Rules) → AreReduced rules problem.now reduced.now → IsLayoutStop rules problem.now e) }
{
    let size = program_size(alloc, problem, reduced)?;
    if size.rows > 600 || size.columns > 2400 {
        return Err(LayoutStop::TooLarge {
            rows: size.rows,
            columns: size.columns,
        });
    }
    let kinds = all_kinds(alloc, problem, reduced)?;
    Ok(Layout {
        kinds: UnknownKinds::from_vec(kinds),
        rows: size.rows,
        columns: size.columns,
    })
}

/// The kinds of all unknowns, where it is told which nodes are reduced.
fn all_kinds(
    alloc: Global,
    problem: &Problem,
    reduced: &[bool],
) -> Result<Vec<UnknownKind>, AllocError>
    requires { length reduced.now ≡ length problem.now.tree }
    ensures { IfOk result (λ v. v.items ≡ kinds_with problem.now (marked reduced.now)) }
{
    let mut kinds = Vec::new(alloc);
    push_kinds(&mut kinds, problem.variables.as_slice())?;
    push_graphs(alloc, &mut kinds, problem, reduced)?;
    Ok(kinds)
}
