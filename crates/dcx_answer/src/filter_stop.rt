//! Why the filter has no answer.
use crate::stop::Stop;
use std::alloc::{AllocError, AllocFailed};

/// Why the filter has no answer.
#[derive(Drop)]
pub enum FilterStop {
    /// A step has no answer, the first one.
    Step {
        /// The step: 0 for all constraints, and then one for each constraint, in order.
        step: u32,
        /// Why.
        stop: Stop,
    },
    /// No memory.
    Memory,
}

impl From<AllocError> for FilterStop {
    ghost use Rattle.std.specs.Prelude.{◌≡◌};
    ghost use Rattle.dcx_answer.specs.declared.filter_stop.FilterStop.TheVariants.{Memory};

    ghost from_gives = { λ _ e. e ≡ Memory };

    fn from(_: AllocError) -> Self {
        FilterStop::Memory
    }
}

impl<T: Drop> From<AllocFailed<T>> for FilterStop {
    ghost use Rattle.std.specs.Prelude.{◌≡◌};
    ghost use Rattle.dcx_answer.specs.declared.filter_stop.FilterStop.TheVariants.{Memory};

    ghost from_gives = { λ _ e. e ≡ Memory };

    fn from(_: AllocFailed<T>) -> Self {
        FilterStop::Memory
    }
}
