//! How many unknowns the variables of a problem have.
ghost use Rattle.std.specs.Prelude.{◌≡◌, ◌<◌, ◌^◌, IfOk};
ghost use Rattle.dcx_unknowns.specs.Unknowns.{variable_unknowns, AreFirstsOf};
ghost use Rattle.dcx_call.specs.Attributes.{AreSquare};

use dcx_tree::Variable;
use dcx_unknowns::entry_unknowns;
use std::alloc::{AllocError, Global};

/// How many unknowns variables have, of which the first of each is told: the last one is that of the last entry of the last
/// variable.
pub(crate) fn unknown_count(
    alloc: Global,
    variables: &[Variable],
    firsts: &[u32],
) -> Result<u32, AllocError>
    requires square { AreSquare variables.now }
    requires firsts { AreFirstsOf variables.now firsts.now }
    requires few { variable_unknowns variables.now < 2 ^ 32 }
    ensures { IfOk result (λ n. n ≡ variable_unknowns variables.now) }
{
    if variables.is_empty() {
        return Ok(0);
    }
    let last = variables.len() - 1;
    let unknowns = entry_unknowns(alloc, firsts[last], &variables[last])?;
    match unknowns[unknowns.len() - 1] {
        Some(unknown) => Ok(unknown + 1),
        None => Ok(firsts[last]),
    }
}
