//! The program of a set of constraints.
ghost use Rattle.std.specs.Prelude.{◌≡◌, ◌≤◌, ◌++◌, [], if◌then◌else◌, length, sum_by, IfOk, IfErr, OnOk};
ghost use Rattle.dcx_unknowns.specs.Layout.{constraint_rows};
ghost use Rattle.dcx_std.specs.GivenRows.{given};
ghost use Rattle.dcx_std.specs.Solutions.{HasKinds};
ghost use Rattle.dcx_lp_solve.specs.Solved.{IsSolved, Stops};
ghost use Rattle.dcx_iis.specs.Steps.{flagged, rows_from, program_of_set};

use dcx_frac::Frac;
use dcx_graph::Reduced;
use dcx_linear::{Form, Row, RowList, Rows, UnknownKinds};
use dcx_lp_solve::{SolveStop, Solved, solve_rows};
use dcx_tree::{Constraint, Problem};
use std::alloc::{AllocError, Global};

/// Adds copies of rows.
fn push_rows(
    alloc: Global,
    copies: &mut Vec<Row<Frac>>,
    rows: &[Row<Frac>],
) -> Result<(), AllocError>
    ensures { OnOk result (copies.new.items ≡ copies.old.items ++ rows.now) }
{
    'rows: for row in rows {
        let form = row.form.copy(alloc)?;
        copies.push(Row {
            kind: row.kind,
            form,
        })?;
    }
    Ok(())
}

/// Adds copies of the rows of a constraint, if it is kept.
fn push_kept(
    alloc: Global,
    copies: &mut Vec<Row<Frac>>,
    rows: &[Row<Frac>],
    kept: bool,
) -> Result<(), AllocError>
    ensures { OnOk result (copies.new.items ≡ copies.old.items ++ (if kept then rows.now else [])) }
{
    if kept {
        push_rows(alloc, copies, rows)
    } else {
        Ok(())
    }
}

/// Copies of the rows of the constraints that are kept, and of those behind the rows of all constraints.
fn rows_kept(
    alloc: Global,
    constraints: &[Constraint],
    rows: &[Row<Frac>],
    kept: &[bool],
) -> Result<Vec<Row<Frac>>, AllocError>
    requires rows { sum_by constraint_rows constraints.now ≤ length rows.now }
    requires flags { length kept.now ≡ length constraints.now }
    ensures { IfOk result (λ v. v.items ≡ rows_from (flagged kept.now) 0 constraints.now rows.now) }
{
    let mut copies = Vec::new(alloc);
    let mut next = 0usize;
    'constraints: for (index, constraint) in constraints.iter().enumerate() {
        let end = next + constraint.shape.size() as usize;
        push_kept(alloc, &mut copies, &rows[next..end], kept[index])?;
        next = end;
    }
    push_rows(alloc, &mut copies, &rows[next..])?;
    Ok(copies)
}

/// The program with the rows of the constraints that are kept and those of atoms, where nothing is to be small.
fn program_of(
    alloc: Global,
    problem: &Problem,
    reduced: &Reduced<Frac>,
    kept: &[bool],
) -> Result<Rows<Frac>, AllocError>
    requires rows { sum_by constraint_rows problem.now.constraints ≤ length reduced.now.program.rows }
    requires flags { length kept.now ≡ length problem.now.constraints }
    ensures { IfOk result (λ r. given r.kinds r.rows r.objective ≡ program_of_set problem.now reduced.now.program (flagged kept.now)) }
{
    let rows = reduced.rows();
    let kinds = UnknownKinds::from_vec(Vec::from_slice(alloc, rows.kinds.as_slice())?);
    let constraints = problem.constraints.as_slice();
    let copies = rows_kept(alloc, constraints, rows.rows.as_slice(), kept)?;
    Ok(Rows {
        rows: RowList::from_vec(copies),
        objective: Form::number(alloc, Frac::zero()),
        kinds,
    })
}

/// The solution of the program of the constraints that are kept, with at most `limit` pivots.
pub(crate) fn solve_kept(
    alloc: Global,
    problem: &Problem,
    reduced: &Reduced<Frac>,
    kept: &[bool],
    limit: u64,
) -> Result<Solved, SolveStop>
    requires rows { sum_by constraint_rows problem.now.constraints ≤ length reduced.now.program.rows }
    requires flags { length kept.now ≡ length problem.now.constraints }
    ensures solved { IfOk result (IsSolved limit (program_of_set problem.now reduced.now.program (flagged kept.now))) }
    ensures known { IfOk result (λ s. HasKinds (program_of_set problem.now reduced.now.program (flagged kept.now))) }
    ensures stops { IfErr result (Stops limit (program_of_set problem.now reduced.now.program (flagged kept.now))) }
{
    let program = program_of(alloc, problem, reduced, kept)?;
    let solved = solve_rows(alloc, &program, limit);
    drop(program);
    solved
}
