//! A program with affine coefficients, at a setting.
ghost use Rattle.std.specs.Prelude.{◌≡◌, true, IfOk};
ghost use Rattle.dcx_graph.specs.Stops.{TellsBy};
ghost use Rattle.dcx_graph.specs.Fixing.{IsListedProgram, FixGives};

use crate::reduced::Reduced;
use crate::stop::ReduceStop;
use dcx_answer::Site;
use dcx_frac::Frac;
use dcx_linear::{MapStop, ParamForm};
use dcx_point::Setting;
use std::alloc::Global;

/// The program at a setting, which has each parameter entry that a form lists: the rows in order, and then what is to be small.
/// A coefficient that becomes 0 is left out; the kinds and the origins stay.
///
/// `Wide` exactly where an operation passes 128 bits, at the first one, with its row: what is to be small counts as the row
/// behind all others. `Memory` is the only other stop.
pub fn fix(
    alloc: Global,
    reduced: &Reduced<ParamForm>,
    setting: &Setting,
) -> Result<Reduced<Frac>, ReduceStop>
    requires { IsListedProgram setting.now reduced.now.program }
    ensures program { TellsBy Site.Map result (λ q. q.program) (FixGives setting.now reduced.now.program) }
    ensures from_map { IfOk result (λ q. q.from_map ≡ true) }
{
    let origins = Vec::from_slice(alloc, reduced.origins())?;
    match reduced.rows().at(alloc, setting) {
        Ok(rows) => Ok(Reduced::new(rows, origins, true)),
        Err(MapStop::Passes { row, passes }) => Err(ReduceStop::Wide(Site::Map {
            row: row as u32,
            passes,
        })),
        Err(MapStop::Memory) => Err(ReduceStop::Memory),
    }
}
