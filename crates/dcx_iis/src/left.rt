//! What is left of the constraints while they are tried one after the other.
ghost use Rattle.std.specs.Prelude.{◌≡◌, ◌+◌, ◌<◌, ◌≤◌, length, sum_by, IfErr, OnOk};
ghost use Rattle.dcx_unknowns.specs.Layout.{constraint_rows};
ghost use Rattle.dcx_iis.specs.Runs.{IsLeft, StopsRun};

use crate::trying::{Tried, try_kept};
use dcx_answer::FilterStop;
use dcx_frac::Frac;
use dcx_graph::Reduced;
use dcx_lp_answer::LpAnswer;
use dcx_point::Point;
use dcx_tree::Problem;
use std::alloc::Global;
use std::mem;

/// What is left of the constraints after some steps.
#[derive(Drop)]
pub(crate) struct Left {
    /// Whether each constraint is kept.
    pub(crate) kept: Vec<bool>,
    /// The answer of the last step that was impossible: it is of the constraints that are kept.
    pub(crate) answer: LpAnswer,
    /// The number of that step.
    pub(crate) step: u32,
    /// For each constraint that was tried and stays, in order, a point that keeps those that were left beside it.
    pub(crate) points: Vec<Point>,
}

impl Left {
    /// Tries a constraint: it is left out, and put back where a point keeps those that are left beside it.
    pub(crate) fn try_without(
        &mut self,
        alloc: Global,
        problem: &Problem,
        reduced: &Reduced<Frac>,
        limit: u64,
        constraint: u32,
    ) -> Result<(), FilterStop>
        requires rows { sum_by constraint_rows problem.now.constraints ≤ length reduced.now.program.rows }
        requires there { constraint < length problem.now.constraints }
        requires left { IsLeft problem.now reduced.now.program limit constraint self.old }
        ensures left { OnOk result (IsLeft problem.now reduced.now.program limit (constraint + 1) self.new) }
        ensures stops { IfErr result (StopsRun problem.now reduced.now.program limit) }
    {
        let step = constraint + 1;
        self.kept[constraint as usize] = false;
        match try_kept(alloc, problem, reduced, &self.kept, limit, step)? {
            Tried::Possible { point } => {
                self.kept[constraint as usize] = true;
                self.points.push(point)?;
                Ok(())
            }
            Tried::Impossible { answer } => {
                drop(mem::replace(&mut self.answer, answer));
                self.step = step;
                Ok(())
            }
        }
    }
}
