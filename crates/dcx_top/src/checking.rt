//! A script is checked: its file gives an accepted problem, of which the report tells, or the run that ends there.
ghost use Rattle.std.specs.Prelude.{◌≡◌, ℕ, List, Some};
ghost use Rattle.dcx_host.specs.Faults.{Rose};
ghost use Rattle.dcx_words.specs.Commands.{check as checks, command_of};
ghost use Rattle.dcx_top.specs.Runs.{Causes};

use crate::files::read_script;
use dcx_host::Library;
use dcx_report::Run;
use std::alloc::Global;

/// What a script gives that is checked.
pub(crate) fn check<L: Library>(alloc: Global, script: &str, library: &mut L) -> Run
    ensures causes { (words : List (List ℕ)) (steps : ℕ) → command_of words ≡ Some (checks script.now)
        → Causes words (L.told library.old) (Rose (L.faults library.old) (L.faults library.new)) steps steps result }
    ensures same { L.told library.new ≡ L.told library.old }
{
    match read_script(alloc, script, library) {
        Ok(accepted) => {
            let run = Run::Checked(accepted.checked());
            drop(accepted);
            run
        }
        Err(run) => run,
    }
}
