//! The two settings of the trial problem.
ghost use Rattle.std.specs.Prelude.{◌≡◌, IfOk, pos};
ghost use Rattle.dcx_math.specs.Rational.{whole};
ghost use Rattle.dcx_frac.specs.Frac.{value};
ghost use Rattle.dcx_overlay.specs.Settings.{IsScalar, IsTrialSetting, AreTrialSettings};

use dcx_atom::Array;
use dcx_frac::{Frac, Fracs};
use dcx_point::Setting;
use dcx_shape::{Name, Shape};
use std::alloc::{AllocError, Global};

/// A whole number as a fraction.
fn whole(number: u32) -> Frac
    ensures { value result ≡ whole (pos number) }
{
    match Frac::of(number as i128, 1) {
        Some(fraction) => fraction,
        None => unreachable!(),
    }
}

/// The array of one number.
fn scalar(alloc: Global, number: u32) -> Result<Array, AllocError>
    ensures { IfOk result (IsScalar number) }
{
    let entries = vec![in alloc; whole(number)]?;
    Ok(Array {
        shape: Shape::scalar(),
        entries: Fracs::from_vec(entries),
    })
}

/// A setting with this number as `q`.
fn trial_setting(alloc: Global, setting: &Setting, number: u32) -> Result<Setting, AllocError>
    ensures { IfOk result (IsTrialSetting setting.now number) }
{
    let mut trial = setting.copy(alloc)?;
    let name = Name::from_vec(b"q".to_vec(alloc)?);
    trial.put(name, scalar(alloc, number)?)?;
    Ok(trial)
}

/// The settings of the trial problem, over the one that its script ends with: first `q` is 0, and then 10.
pub fn trial_settings(alloc: Global, setting: &Setting) -> Result<Vec<Setting>, AllocError>
    ensures { IfOk result (λ v. AreTrialSettings setting.now v.items) }
{
    let mut settings = Vec::with_capacity(alloc, 2)?;
    settings.push(trial_setting(alloc, setting, 0)?)?;
    settings.push(trial_setting(alloc, setting, 10)?)?;
    Ok(settings)
}
