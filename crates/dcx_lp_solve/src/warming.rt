//! An answer of a scaled program, by a warm run from the basic columns of an earlier answer.
ghost use Rattle.std.specs.Prelude.{◌≡◌, ◌↔◌, ℕ, ◌<◌, IsTrue, length, get_or, IfOk, IfSome};
ghost use Rattle.dcx_tab.specs.First.{first_tableau};
ghost use Rattle.dcx_chained.specs.Tables.{table_of};
ghost use Rattle.dcx_lp_answer.specs.declared.answer.LpStatus.TheVariants as status;
ghost use Rattle.dcx_lp_answer.specs.Right.{IsRight};
ghost use Rattle.dcx_simplex.specs.Reading.{IsReading, HasNoRay};
ghost use Rattle.dcx_warm.specs.Install.{AreApart, IsColumnList};
ghost use Rattle.dcx_warm.specs.Warm.{IsOptimalAt};
ghost use Rattle.dcx_lp_solve.specs.Warm.{RunsWarm};

use dcx_chained::Chained;
use dcx_lp_answer::LpAnswer;
use dcx_tab::{Program, plain_of};
use dcx_warm::{Columns, read_warm, warm};
use std::alloc::{AllocError, Global};

/// What a warm run that ends optimal ends with.
#[derive(Drop)]
pub struct WarmEnd {
    /// The tableau at the basis from which the answer is read.
    pub tableau: Chained,
    /// The answer.
    pub answer: LpAnswer,
}

/// Whether the columns stand among the first `plain`, which aren't artificials.
fn are_plain(columns: &[u32], plain: usize) -> bool
    ensures { IsTrue result ↔ ((k : ℕ) → k < length columns.now → get_or columns.now k 0 < plain) }
{
    'columns: for column in columns {
        if *column as usize >= plain {
            return false;
        }
    }
    true
}

/// Whether the columns can start a warm run on a program: none of them is an artificial there.
fn can_start(columns: &Columns, program: &Program) -> bool
    requires { AreApart columns.now }
    ensures { IsTrue result ↔ IsColumnList (first_tableau program.now).plain columns.now }
{
    let plain = plain_of(program.columns.as_slice());
    are_plain(columns.as_slice(), plain)
}

/// What is read where the run ends optimal.
fn read(alloc: Global, program: &Program, tableau: Chained) -> Result<WarmEnd, AllocError>
    requires { IsOptimalAt program.now (table_of tableau) }
    ensures tableau { IfOk result (λ e. e.tableau ≡ tableau) }
    ensures numbers { IfOk result (λ e. IsReading program.now.rows program.now.columns (table_of tableau) status.Optimal e.answer) }
    ensures no_ray { IfOk result (λ e. HasNoRay e.answer) }
    ensures right { IfOk result (λ e. IsRight program.now e.answer) }
{
    match read_warm(alloc, &tableau, program) {
        Ok(answer) => Ok(WarmEnd { tableau, answer }),
        Err(_) => {
            drop(tableau);
            Err(AllocError)
        }
    }
}

/// The run on a scaled program, from its first tableau.
fn run(
    alloc: Global,
    program: &Program,
    tableau: Chained,
    columns: &Columns,
    limit: u64,
) -> Result<Option<WarmEnd>, AllocError>
    requires first { table_of tableau ≡ first_tableau program.now }
    requires list { IsColumnList (first_tableau program.now).plain columns.now }
    ensures runs { IfOk result (RunsWarm limit columns.now program.now) }
    ensures right { IfOk result (λ o. IfSome o (λ e. IsRight program.now e.answer)) }
{
    let mut tableau = tableau;
    match warm(&mut tableau, columns, limit) {
        Some(_) => match read(alloc, program, tableau) {
            Ok(end) => Ok(Some(end)),
            Err(_) => Err(AllocError),
        },
        None => {
            drop(tableau);
            Ok(None)
        }
    }
}

/// Solves a scaled program from listed columns, of which none stands twice, with at most `limit` pivots: where the warm run from
/// them ends optimal, its tableau at the last basis, and the answer that is read there, which is right.
///
/// `None` everywhere else: where a column is an artificial of the program, and where `warm` tells that the run doesn't end so. What
/// the run made of the tableau is let go then.
pub fn solve_warm(
    alloc: Global,
    program: &Program,
    columns: &Columns,
    limit: u64,
) -> Result<Option<WarmEnd>, AllocError>
    requires { AreApart columns.now }
    ensures runs { IfOk result (RunsWarm limit columns.now program.now) }
    ensures right { IfOk result (λ o. IfSome o (λ e. IsRight program.now e.answer)) }
{
    if !can_start(columns, program) {
        return Ok(None);
    }
    match Chained::build(alloc, program) {
        Ok(tableau) => run(alloc, program, tableau, columns, limit),
        Err(_) => Err(AllocError),
    }
}
