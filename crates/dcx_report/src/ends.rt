//! How a setting ends, as far as settings are counted and a status goes.
ghost use Rattle.std.specs.Prelude.{◌≡◌, Bool};
ghost use Rattle.dcx_report.specs.Ends.{is_answer, is_filtered, is_ranged, wants_memory, filter_wants_memory, range_wants_memory};

use crate::{
    BranchStop, FilterEnd, FilterOutcome, FilterStop, Outcome, OutcomeEnd, RangeEnd, RangeOutcome,
    RangeStop, Stop,
};

/// The outcome of a setting.
pub trait SettingEnd {
    /// Whether the setting is answered, and not stopped.
    ghost answered: { Self → Bool };

    /// Whether it stopped for want of memory.
    ghost wanted: { Self → Bool };

    /// Whether the setting is answered, and not stopped.
    fn is_answered(&self) -> bool
        ensures { result ≡ answered self.now };

    /// Whether it stopped for want of memory.
    fn wants_memory(&self) -> bool
        ensures { result ≡ wanted self.now };
}

impl SettingEnd for Outcome {
    ghost answered = { λ o. is_answer o.end };

    ghost wanted = { λ o. wants_memory o.end };

    fn is_answered(&self) -> bool {
        matches!(&self.end, OutcomeEnd::Answer(_) | OutcomeEnd::Whole(_))
    }

    fn wants_memory(&self) -> bool {
        matches!(
            &self.end,
            OutcomeEnd::Branch(BranchStop::Memory) | OutcomeEnd::Stop(Stop::Memory)
        )
    }
}

impl SettingEnd for FilterOutcome {
    ghost answered = { λ o. is_filtered o.end };

    ghost wanted = { λ o. filter_wants_memory o.end };

    fn is_answered(&self) -> bool {
        matches!(&self.end, FilterEnd::Filtered(_))
    }

    fn wants_memory(&self) -> bool {
        matches!(
            &self.end,
            FilterEnd::Filter(FilterStop::Memory) | FilterEnd::Stop(Stop::Memory)
        )
    }
}

impl SettingEnd for RangeOutcome {
    ghost answered = { λ o. is_ranged o.end };

    ghost wanted = { λ o. range_wants_memory o.end };

    fn is_answered(&self) -> bool {
        matches!(&self.end, RangeEnd::Ranged(_))
    }

    fn wants_memory(&self) -> bool {
        matches!(
            &self.end,
            RangeEnd::Range(RangeStop::Memory) | RangeEnd::Stop(Stop::Memory)
        )
    }
}
