//! Copies of multipliers, and of a setting in the order in which its parameters are declared.
ghost use Rattle.std.specs.Prelude.{◌≡◌, ◌++◌, [], ◌∷◌, IfOk, OnOk};
ghost use Rattle.dcx_point.specs.Pairs.{with_array};
ghost use Rattle.dcx_cert_build.specs.Built.{values_in};

use dcx_answer::Duals;
use dcx_atom::{Array, copy_array};
use dcx_point::Setting;
use dcx_shape::{Name, copy_name};
use dcx_tree::Problem;
use std::alloc::{AllocError, Global};

/// Adds a copy of an array.
fn push_copy(alloc: Global, copies: &mut Vec<Array>, array: &Array) -> Result<(), AllocError>
    ensures { OnOk result (copies.new.items ≡ copies.old.items ++ array.now ∷ []) }
{
    let copy = copy_array(alloc, array)?;
    copies.push(copy)?;
    Ok(())
}

/// The same multipliers again.
pub(crate) fn copy_duals(alloc: Global, duals: &Duals) -> Result<Duals, AllocError>
    ensures { IfOk result (λ d. d ≡ duals.now) }
{
    let mut copies = Vec::new(alloc);
    'arrays: for array in duals.as_slice() {
        push_copy(alloc, &mut copies, array)?;
    }
    Ok(Duals::from_vec(copies))
}

/// Puts a copy of an array under this name.
fn put_copy(
    alloc: Global,
    setting: &mut Setting,
    name: &Name,
    array: &Array,
) -> Result<(), AllocError>
    ensures { OnOk result (setting.new ≡ with_array setting.old name.now array.now) }
{
    let name = copy_name(alloc, name)?;
    let array = copy_array(alloc, array)?;
    setting.put(name, array)
}

/// The arrays that a setting gives the parameters of a problem, in order of declaration. Fails only for want of memory.
pub fn values_of(alloc: Global, problem: &Problem, setting: &Setting) -> Result<Setting, AllocError>
    ensures { IfOk result (λ s. s ≡ values_in problem.now setting.now) }
{
    let mut values = Setting::empty(alloc);
    'parameters: for parameter in problem.parameters.as_slice() {
        if let Some(array) = setting.get(&parameter.name) {
            put_copy(alloc, &mut values, &parameter.name, array)?;
        }
    }
    Ok(values)
}
