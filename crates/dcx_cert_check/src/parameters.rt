//! Whether the parameters' values that a certificate tells are those of the setting.
ghost use Rattle.std.specs.Prelude.{◌^◌, ◌<◌, length};
ghost use Rattle.std.specs.Option.{option_copied};
ghost use Rattle.dcx_frac.specs.Frac.{value};
ghost use Rattle.dcx_cert_sections.specs.Checks.{Checked};
ghost use Rattle.dcx_cert_check.specs.Demands.{each_in};
ghost use Rattle.dcx_cert_check.specs.Numbers.{number_if};
ghost use Rattle.dcx_cert_check.specs.SingleChecks.{entry_is, entries_are, parameter_is, setting_is};

use crate::numbers::number_in;
use dcx_answer::CertFault;
use dcx_atom::{Array, is_equal};
use dcx_frac::Frac;
use dcx_point::Setting;
use dcx_shape::Shape;
use dcx_tree::{Parameter, Problem};

/// Whether the parameters' values that a certificate tells, where it does, are those of the setting. `Setting` tells the first
/// parameter, and its first entry, at which they aren't. Numbers that aren't given count as 0.
pub fn check_params(
    problem: &Problem,
    params: &Option<Setting>,
    setting: &Setting,
) -> Result<(), CertFault>
    ensures { Checked (setting_is problem.now params.now setting.now) result }
{
    match params {
        Some(told) => check_told(problem.parameters.as_slice(), told, setting),
        None => Ok(()),
    }
}

/// Whether the values that are told of some parameters are those of the setting.
fn check_told(parameters: &[Parameter], told: &Setting, setting: &Setting) -> Result<(), CertFault>
    requires { length parameters.now < 2 ^ 32 }
    ensures { Checked (each_in parameters.now (parameter_is told.now setting.now)) result }
{
    'parameters: for k in 0..parameters.len() {
        check_parameter(&parameters[k], k as u32, told, setting)?;
    }
    Ok(())
}

/// Whether the array that is told of a parameter is that of the setting.
fn check_parameter(
    parameter: &Parameter,
    number: u32,
    told: &Setting,
    setting: &Setting,
) -> Result<(), CertFault>
    ensures { Checked (parameter_is told.now setting.now number parameter.now) result }
{
    check_entries(
        number,
        parameter.shape,
        told.get(&parameter.name),
        setting.get(&parameter.name),
    )
}

/// Whether the entries of two arrays are the same.
fn check_entries(
    number: u32,
    shape: Shape,
    told: Option<&Array>,
    setting: Option<&Array>,
) -> Result<(), CertFault>
    ensures { Checked (entries_are number shape (number_if (option_copied told.entry)) (number_if (option_copied setting.entry))) result }
{
    'entries: for entry in 0..shape.size() {
        check_entry(
            number,
            entry,
            number_in(told, entry),
            number_in(setting, entry),
        )?;
    }
    Ok(())
}

/// Whether an entry is the same.
fn check_entry(number: u32, entry: u32, stated: Frac, found: Frac) -> Result<(), CertFault>
    ensures { Checked (entry_is number entry (value stated) (value found)) result }
{
    if is_equal(&stated, &found) {
        return Ok(());
    }
    Err(CertFault::Setting {
        parameter: number,
        entry,
        stated,
        found,
    })
}
