//! What stops a setting, from what stops a part of the way.
ghost use Rattle.std.specs.Prelude.{◌≡◌};
ghost use Rattle.dcx_cache.specs.Stops.{program_stop, reading_stop};

use dcx_answer::Stop;
use dcx_graph::{AnswerStop, ReduceStop};

/// The stop of a setting at which there is no program.
pub(crate) fn program_stop(stop: ReduceStop) -> Stop
    ensures { result ≡ program_stop stop }
{
    match stop {
        ReduceStop::TooLarge { rows, columns } => Stop::TooLarge { rows, columns },
        ReduceStop::ZeroDivisor { node, entry } => Stop::ZeroDivisor { node, entry },
        ReduceStop::Wide(site) => Stop::Wide(site),
        ReduceStop::Memory => Stop::Memory,
    }
}

/// The stop of a setting whose answer isn't read.
pub(crate) fn reading_stop(stop: AnswerStop) -> Stop
    ensures { result ≡ reading_stop stop }
{
    match stop {
        AnswerStop::Wide(site) => Stop::Wide(site),
        AnswerStop::Memory => Stop::Memory,
    }
}
