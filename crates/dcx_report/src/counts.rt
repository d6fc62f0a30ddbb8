//! Appends the line that counts settings.
ghost use Rattle.std.specs.Prelude.{◌≡◌, ◌++◌, not, count_by, OnOk};
ghost use Rattle.dcx_report.specs.OutcomeText.{counts_line};

use crate::ends::SettingEnd;
use crate::pieces::put_numbered;
use dcx_lines::put_bytes;
use std::alloc::AllocError;

/// How many settings are answered.
fn answers<E: SettingEnd>(outcomes: &[E]) -> usize
    ensures { result ≡ count_by E.answered outcomes.now }
{
    outcomes.iter().filter(|o| o.is_answered()).count()
}

/// How many settings are stopped.
fn stops<E: SettingEnd>(outcomes: &[E]) -> usize
    ensures { result ≡ count_by (λ o. not (E.answered o)) outcomes.now }
{
    outcomes.iter().filter(|o| !o.is_answered()).count()
}

/// Appends the line that counts settings: so many are answered, and so many are stopped.
fn put_count_line(out: &mut Vec<u8>, answers: usize, stops: usize) -> Result<(), AllocError>
    ensures { OnOk result (out.new.items ≡ out.old.items ++ counts_line answers stops) }
{
    put_numbered(out, b"answered ", answers as u64)?;
    put_numbered(out, b" stopped ", stops as u64)?;
    put_bytes(out, b"\n")
}

/// Appends the line that counts the settings of these outcomes.
pub(crate) fn put_setting_counts<E: SettingEnd>(
    out: &mut Vec<u8>,
    outcomes: &[E],
) -> Result<(), AllocError>
    ensures { OnOk result (out.new.items ≡ out.old.items ++ counts_line (count_by E.answered outcomes.now) (count_by (λ o. not (E.answered o)) outcomes.now)) }
{
    put_count_line(out, answers(outcomes), stops(outcomes))
}
