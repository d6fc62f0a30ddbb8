//! Lines of a settings file, laid over the setting that a script ends with.
ghost use Rattle.std.specs.Prelude.{IfOk};
ghost use Rattle.dcx_settings.specs.Grammar.{Every};
ghost use Rattle.dcx_settings.specs.Meaning.{IsFull};
ghost use Rattle.dcx_overlay.specs.Settings.{HasNumbers, LaidOver, AreLaidOver};

use dcx_atom::Array;
use dcx_frac::Fracs;
use dcx_point::Setting;
use dcx_settings::{SettingItem, SettingLine};
use dcx_shape::copy_name;
use std::alloc::{AllocError, Global};

/// The array that an item gives.
fn array_of(alloc: Global, item: &SettingItem) -> Result<Array, AllocError>
    requires { IsFull item.now }
    ensures { IfOk result (HasNumbers item.now) }
{
    let numbers = Vec::from_slice(alloc, item.numbers.as_slice())?;
    Ok(Array {
        shape: item.shape,
        entries: Fracs::from_vec(numbers),
    })
}

/// A setting with the items of a line laid over it.
fn laid_over(alloc: Global, setting: &Setting, line: &[SettingItem]) -> Result<Setting, AllocError>
    requires { Every IsFull line.now }
    ensures { IfOk result (LaidOver setting.now line.now) }
{
    let mut laid = setting.copy(alloc)?;
    for item in line {
        let name = copy_name(alloc, &item.name)?;
        let array = array_of(alloc, item)?;
        laid.put(name, array)?;
    }
    Ok(laid)
}

/// The settings of lines, each laid over the same setting: its values replace those of the same name, and new names follow in the
/// line's order. Each item of a line has as many numbers as its shape has entries.
pub fn all_laid_over(
    alloc: Global,
    setting: &Setting,
    lines: &[SettingLine],
) -> Result<Vec<Setting>, AllocError>
    requires { Every (Every IsFull) lines.now }
    ensures { IfOk result (λ v. AreLaidOver setting.now lines.now v.items) }
{
    let mut settings = Vec::with_capacity(alloc, lines.len())?;
    for line in lines {
        settings.push(laid_over(alloc, setting, line.as_slice())?)?;
    }
    Ok(settings)
}
