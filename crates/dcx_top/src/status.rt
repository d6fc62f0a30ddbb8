//! The status of a run whose whole report is written.
ghost use Rattle.std.specs.Prelude.{◌≡◌, ◌≢◌, ◌⊎◌};
ghost use Rattle.std.specs.List.{list_any, list_all};
ghost use Rattle.dcx_top.specs.Ended.{status_of_all as status_of_outcomes, status_of};

use dcx_report::{Run, SettingEnd};

/// Whether each setting is answered.
fn are_answered<E: SettingEnd>(outcomes: &[E]) -> bool
    ensures { result ≡ list_all E.answered outcomes.now }
{
    outcomes.iter().all(|outcome| outcome.is_answered())
}

/// Whether a setting stopped for want of memory.
fn has_want_of_memory<E: SettingEnd>(outcomes: &[E]) -> bool
    ensures { result ≡ list_any E.wanted outcomes.now }
{
    outcomes.iter().any(|outcome| outcome.wants_memory())
}

/// The status of outcomes: 5 where a setting stopped for want of memory, else 0 where each is answered, and else 6.
fn status_of_all<E: SettingEnd>(outcomes: &[E]) -> u8
    ensures { result ≡ status_of_outcomes E.answered E.wanted outcomes.now }
{
    if has_want_of_memory(outcomes) {
        5
    } else if are_answered(outcomes) {
        0
    } else {
        6
    }
}

/// The status of a run whose whole report is written.
pub(crate) fn status(run: &Run) -> u8
    ensures { result ≡ status_of run.now }
{
    match run {
        Run::Usage => 2,
        Run::Refused(_) => 1,
        Run::Checked(_) => 0,
        Run::Solved { outcomes, .. } => status_of_all(outcomes.as_slice()),
        Run::Certificates { stopped: true, .. } => 6,
        Run::Certificates { stopped: false, .. } => 0,
        Run::Certified { .. } => 0,
        Run::CertRefused { .. } => 7,
        Run::Trial { outcomes, .. } => status_of_all(outcomes.as_slice()),
        Run::Filtered { outcomes } => status_of_all(outcomes.as_slice()),
        Run::Ranged { outcomes, .. } => status_of_all(outcomes.as_slice()),
        Run::ReadFault => 3,
        Run::Memory => 5,
    }
}

/// The status of a run whose report can't be written: 5 where the run wants memory, else 4.
pub(crate) fn failed_status(run: &Run) -> u8
    ensures { ((status_of run.now ≢ 5) × (result ≡ 4)) ⊎ ((status_of run.now ≡ 5) × (result ≡ 5)) }
{
    match status(run) {
        5 => 5,
        _ => 4,
    }
}
