//! What a script stands for.
ghost use Rattle.dcx_elab.specs.Meaning.{Elaborates};

use crate::statements::lines;
use dcx_frac::List;
use dcx_point::Setting;
use dcx_script_state::State;
use dcx_script_values::ElabFault;
use dcx_syntax::Script;
use dcx_tree::Problem;
use std::alloc::Global;

/// The settings at which a script solves its problem, in order, seen by contracts as a list.
pub type Events = List<Setting>;

/// What a script stands for.
#[derive(Drop)]
pub struct Work {
    /// The problem.
    pub problem: Problem,
    /// The setting of each solve, or that at the end where there is none: the values of the parameters that the problem
    /// reaches.
    pub events: Events,
    /// The setting at the end.
    pub last: Setting,
}

/// What a script stands for, carried out statement by statement.
///
/// An `Err` is the first fault, with its place. `Memory` says that memory ran out.
pub fn elaborate(alloc: Global, script: &Script) -> Result<Work, ElabFault>
    ensures { Elaborates result script.now }
{
    let mut state = State::new(alloc);
    lines(&mut state, &script.lines)?;
    let asking = state.finish()?;
    Ok(Work {
        problem: asking.problem,
        events: Events::from_vec(asking.events),
        last: asking.last,
    })
}
