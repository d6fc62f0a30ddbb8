//! The answer at the end of a warm run, from the tableau of its last basis.
ghost use Rattle.std.specs.Prelude.{IfOk};
ghost use Rattle.dcx_simplex.specs.Reading.{IsReading, HasNoRay};
ghost use Rattle.dcx_lp_answer.specs.Right.{IsRight};
ghost use Rattle.dcx_warm.specs.Warm.{IsOptimalAt};

use dcx_lp_answer::{LpAnswer, LpStatus};
use dcx_simplex::read_costs;
use dcx_tab::{Program, Tableau};
use std::alloc::{AllocError, Global};

/// The answer that the tableau of an optimal basis shows: its numbers, which are optimal and right for the program.
pub fn read_warm<T: Tableau>(
    alloc: Global,
    tableau: &T,
    program: &Program,
) -> Result<LpAnswer, AllocError>
    requires { IsOptimalAt program.now (T.table tableau.now) }
    ensures numbers { IfOk result (IsReading program.now.rows program.now.columns (T.table tableau.now) LpStatus.Optimal) }
    ensures no_ray { IfOk result HasNoRay }
    ensures right { IfOk result (IsRight program.now) }
{
    read_costs(alloc, tableau, program, LpStatus::Optimal)
}
