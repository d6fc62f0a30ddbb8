//! An answer of rows, by the run of Bland's rule on their scaled program.
ghost use Rattle.std.specs.Prelude.{◌≡◌, IfOk, IfErr};
ghost use Rattle.dcx_chained.specs.Tables.{table_of};
ghost use Rattle.dcx_lp_answer.specs.Right.{IsRight};
ghost use Rattle.dcx_simplex.specs.Finished.{IsFinished};
ghost use Rattle.dcx_simplex.specs.Reading.{IsRead};
ghost use Rattle.dcx_std.specs.GivenRows.{given};
ghost use Rattle.dcx_lp_solve.specs.Solved.{IsRunSolved, RunStops, IsSolved, Stops};

use crate::stop::{SolveStop, rows_stop};
use dcx_answer::Site;
use dcx_chained::Chained;
use dcx_frac::Frac;
use dcx_linear::Rows;
use dcx_lp_answer::LpAnswer;
use dcx_simplex::{LpEnd, read_end, solve};
use dcx_std::integer_rows;
use dcx_tab::Program;
use std::alloc::Global;

/// Rows that are solved.
#[derive(Drop)]
pub struct Solved {
    /// Their scaled program.
    pub program: Program,
    /// Its tableau at the basis from which the answer is read.
    pub tableau: Chained,
    /// The answer.
    pub answer: LpAnswer,
}

/// What is read at the end of a run.
fn read(alloc: Global, program: Program, tableau: Chained, end: &LpEnd) -> Result<Solved, SolveStop>
    requires { IsFinished program (table_of tableau) end.now }
    ensures program { IfOk result (λ s. s.program ≡ program) }
    ensures tableau { IfOk result (λ s. s.tableau ≡ tableau) }
    ensures read { IfOk result (λ s. IsRead program.rows program.columns (table_of tableau) end.now s.answer) }
    ensures right { IfOk result (λ s. IsRight program s.answer) }
    ensures stops { IfErr result (λ e. e ≡ SolveStop.Memory) }
{
    match read_end(alloc, &tableau, &program, end) {
        Ok(answer) => Ok(Solved {
            program,
            tableau,
            answer,
        }),
        Err(_) => {
            drop((program, tableau));
            Err(SolveStop::Memory)
        }
    }
}

/// Solves a scaled program with at most `limit` pivots: its tableau at the last basis of the run of Bland's rule, and the answer
/// that is read there, which is right.
///
/// `Wide` with the site of a pivot, and `PivotLimit`, exactly where the run ends so. `Memory` where there is none.
pub fn solve_program(alloc: Global, program: Program, limit: u64) -> Result<Solved, SolveStop>
    ensures solved { IfOk result (IsRunSolved limit program) }
    ensures right { IfOk result (λ s. IsRight s.program s.answer) }
    ensures stops { IfErr result (RunStops limit program) }
{
    let mut tableau = match Chained::build(alloc, &program) {
        Ok(tableau) => tableau,
        Err(_) => {
            drop(program);
            return Err(SolveStop::Memory);
        }
    };
    let end = solve(&mut tableau, limit);
    match end {
        LpEnd::Optimal { .. } | LpEnd::Infeasible { .. } | LpEnd::Unbounded { .. } => {
            read(alloc, program, tableau, &end)
        }
        LpEnd::Wide {
            pivots,
            row,
            column,
        } => {
            drop((program, tableau));
            Err(SolveStop::Wide(Site::Pivot {
                pivots,
                row,
                column,
            }))
        }
        LpEnd::PivotLimit { count } => {
            drop((program, tableau));
            Err(SolveStop::PivotLimit { count })
        }
    }
}

/// Solves rows with at most `limit` pivots: their scaled program, its tableau at the last basis, and the answer that is read
/// there, which is right.
///
/// `TooLarge` and `Wide` with the site of a row where the rows have no scaled program, as `integer_rows` has it; then the stops
/// of `solve_program`.
pub fn solve_rows(alloc: Global, rows: &Rows<Frac>, limit: u64) -> Result<Solved, SolveStop>
    ensures solved { IfOk result (IsSolved limit (given rows.now.kinds rows.now.rows rows.now.objective)) }
    ensures right { IfOk result (λ s. IsRight s.program s.answer) }
    ensures stops { IfErr result (Stops limit (given rows.now.kinds rows.now.rows rows.now.objective)) }
{
    match integer_rows(alloc, rows) {
        Ok(program) => solve_program(alloc, program, limit),
        Err(stop) => Err(rows_stop(stop)),
    }
}
