//! The forms of all nodes of a problem.
ghost use Rattle.std.specs.Prelude.{◌≡◌, ◌≤◌, ◌+◌, length, IfOk, IfErr, OnOk};
ghost use Rattle.dcx_convex.specs.Rules.{Rules};
ghost use Rattle.dcx_unknowns.specs.Unknowns.{variable_unknowns};
ghost use Rattle.dcx_unknowns.specs.Layout.{AreReduced};
ghost use Rattle.dcx_entries.specs.Kept.{IsKept, IsStop};
ghost use Rattle.dcx_nodes.specs.Given.{IsReady, HasFewUnknowns, NumbersAreGiven, ParametersAreReadable};
ghost use Rattle.dcx_nodes.specs.Marks.{AreFixed};
ghost use Rattle.dcx_nodes.specs.SoFar.{IsMarkedKept, IsMarkedStop};

use crate::count::unknown_count;
use crate::forming::{Forming, add_nodes};
use crate::given::Given;
use crate::uses::last_uses;
use dcx_entries::{FormStop, Formed, FormedRows, StandingList};
use dcx_linear::Coef;
use dcx_point::Setting;
use dcx_steps::Steps;
use dcx_tree::Problem;
use dcx_unknowns::first_unknowns;
use std::alloc::Global;
use std::sync::ledger::Ledger;

/// The forms of the objective and of the sides of constraints, and the rows of the graphs of all nodes. All nodes are formed, in
/// order, each from the forms of its arguments; forms that aren't asked for any more are given back. `reduced` tells of each node
/// whether it is reduced by the rules, and `fixed` whether it reaches no variable. There are fewer than 2^32 unknowns, the setting
/// has what nodes take that aren't reduced, and the entries of the parameters that are reduced may be asked for. One step is
/// counted for each node that is begun.
///
/// `Passes` or `ZeroDivisor` at the first node and entry with an operation that passes 128 bits or a divisor that is 0; `Memory`
/// where there is none.
pub fn form_nodes<C: Coef, L: Ledger>(
    alloc: Global,
    problem: &Problem,
    reduced: &[bool],
    fixed: &[bool],
    setting: &Setting,
    steps: &mut Steps<L>,
) -> Result<Formed<C>, FormStop>
    requires reduced { length reduced.now ≡ length problem.now.tree }
    requires fixed { length fixed.now ≡ length problem.now.tree }
    requires few { HasFewUnknowns problem.now reduced.now }
    requires numbers { NumbersAreGiven problem.now reduced.now setting.now }
    requires readable { ParametersAreReadable C.can_read problem.now reduced.now setting.now }
    ensures formed { IfOk result (λ f. (rules : Rules) → AreReduced rules problem.now reduced.now → AreFixed problem.now fixed.now
        → IsKept C.of_number C.number_of C.sum_gives C.change_gives C.parameter_gives rules problem.now setting.now f) }
    ensures stop { IfErr result (λ e. (rules : Rules) → AreReduced rules problem.now reduced.now → AreFixed problem.now fixed.now
        → IsStop C.of_number C.number_of C.sum_gives C.change_gives C.parameter_gives rules problem.now setting.now e) }
    ensures steps { OnOk result (steps.new ≡ steps.old + length problem.now.tree) }
    ensures begun { steps.new ≤ steps.old + length problem.now.tree }
{
    let variables = problem.variables.as_slice();
    let firsts = match first_unknowns(alloc, variables) {
        Ok(firsts) => firsts,
        Err(_) => return Err(FormStop::Memory),
    };
    let next = match unknown_count(alloc, variables, &firsts) {
        Ok(next) => next,
        Err(_) => return Err(FormStop::Memory),
    };
    let given = Given {
        problem,
        reduced,
        fixed,
        setting,
        firsts: &firsts,
    };
    all_nodes(alloc, &given, next, steps)
}

/// The forms of all nodes, where the first auxiliary unknown is told.
fn all_nodes<C: Coef, L: Ledger>(
    alloc: Global,
    given: &Given,
    next: u32,
    steps: &mut Steps<L>,
) -> Result<Formed<C>, FormStop>
    requires ready { IsReady C.can_read given.now.problem.now given.now.reduced.now given.now.fixed.now given.now.setting.now given.now.firsts.now }
    requires next { next ≡ variable_unknowns given.now.problem.now.variables }
    ensures formed { IfOk result (IsMarkedKept C.of_number C.number_of C.sum_gives C.change_gives C.parameter_gives
        given.now.problem.now given.now.setting.now given.now.reduced.now given.now.fixed.now) }
    ensures stop { IfErr result (IsMarkedStop C.of_number C.number_of C.sum_gives C.change_gives C.parameter_gives
        given.now.problem.now given.now.setting.now given.now.reduced.now given.now.fixed.now) }
    ensures steps { OnOk result (steps.new ≡ steps.old + length given.now.problem.now.tree) }
    ensures begun { steps.new ≤ steps.old + length given.now.problem.now.tree }
{
    let uses = match last_uses(alloc, given.problem) {
        Ok(uses) => uses,
        Err(_) => return Err(FormStop::Memory),
    };
    let mut forming = Forming {
        standing: Vec::new(alloc),
        rows: Vec::new(alloc),
        next,
    };
    match add_nodes(alloc, given, &uses, &mut forming, steps) {
        Ok(()) => {
            let Forming {
                standing,
                rows,
                next: _,
            } = forming;
            Ok(Formed {
                standing: StandingList::from_vec(standing),
                rows: FormedRows::from_vec(rows),
            })
        }
        Err(stop) => {
            drop(forming);
            Err(stop)
        }
    }
}
