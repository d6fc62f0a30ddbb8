//! What reaches the entries of one variable.
ghost use Rattle.std.specs.Prelude.{◌≡◌, ◌<◌, MatchBool};
ghost use Rattle.dcx_frac.specs.Frac.{value};
ghost use Rattle.dcx_shape.specs.Shape.{sides_of};
ghost use Rattle.dcx_shape.specs.Sides.{entries_of};
ghost use Rattle.dcx_unknowns.specs.Own.{is_own, mirror_of};
ghost use Rattle.dcx_unknowns.specs.Unknowns.{demanded, sides_in};
ghost use Rattle.dcx_cert_sections.specs.Checks.{Checked, each_below};
ghost use Rattle.dcx_cert_bound.specs.Variables.{mirrored, reaching_entry, MayReachEntry, MayNotReachEntry, number_check, entry_check};

use dcx_answer::CertFault;
use dcx_atom::{is_at_most, is_equal, number_at};
use dcx_frac::{Frac, Passes};
use dcx_shape::Shape;
use dcx_tree::{Attribute, Variable};

/// Whether an entry is asked: it has an unknown of its own.
fn is_asked(attribute: Attribute, shape: Shape, entry: u32) -> bool
    requires { entry < entries_of (sides_of shape) }
    ensures { result ≡ is_own attribute (sides_of shape) entry }
{
    let columns = shape.cols();
    let row = entry / columns;
    let column = entry % columns;
    match attribute {
        Attribute::Symmetric => row <= column,
        Attribute::Diag => row == column,
        _ => true,
    }
}

/// A coefficient and that of the mirror, where the entry has one.
fn mirrored(shape: Shape, coefficients: &[Frac], entry: u32) -> Result<Frac, Passes>
    requires { entry < entries_of (sides_of shape) }
    ensures { result ≡ mirrored (sides_of shape) coefficients.now entry }
{
    let columns = shape.cols();
    let row = entry / columns;
    let column = entry % columns;
    let own = number_at(coefficients, entry as usize);
    if row == column {
        return Ok(own);
    }
    own.add(number_at(coefficients, (column * columns + row) as usize))
}

/// What reaches an entry that is asked.
fn reaching_entry(
    attribute: Attribute,
    shape: Shape,
    coefficients: &[Frac],
    entry: u32,
) -> Result<Frac, Passes>
    requires { entry < entries_of (sides_of shape) }
    ensures { result ≡ reaching_entry attribute (sides_of shape) coefficients.now entry }
{
    match attribute {
        Attribute::Symmetric => mirrored(shape, coefficients, entry),
        _ => Ok(number_at(coefficients, entry as usize)),
    }
}

/// Whether a number may reach an entry of a variable with this attribute.
fn may_reach(attribute: Attribute, number: &Frac) -> bool
    ensures { MatchBool result (MayReachEntry attribute (value number.now)) (MayNotReachEntry attribute (value number.now)) }
{
    match attribute {
        Attribute::Nonneg => is_at_most(&Frac::zero(), number),
        Attribute::Nonpos => is_at_most(number, &Frac::zero()),
        _ => is_equal(number, &Frac::zero()),
    }
}

/// Whether what reaches an entry may, where it is formed.
fn check_number(
    attribute: Attribute,
    variable: u32,
    entry: u32,
    number: Result<Frac, Passes>,
) -> Result<(), CertFault>
    ensures { Checked (number_check attribute variable entry number) result }
{
    match number {
        Ok(value) => {
            if may_reach(attribute, &value) {
                Ok(())
            } else {
                Err(CertFault::Variable {
                    variable,
                    entry,
                    value,
                })
            }
        }
        Err(passes) => Err(CertFault::Wide(passes)),
    }
}

/// Whether what reaches an entry may, where it is asked.
fn check_entry(
    attribute: Attribute,
    shape: Shape,
    coefficients: &[Frac],
    variable: u32,
    entry: u32,
) -> Result<(), CertFault>
    requires { entry < entries_of (sides_of shape) }
    ensures { Checked (entry_check attribute (sides_of shape) coefficients.now variable entry) result }
{
    if !is_asked(attribute, shape, entry) {
        return Ok(());
    }
    let number = reaching_entry(attribute, shape, coefficients, entry);
    check_number(attribute, variable, entry, number)
}

/// Whether what reaches the entries of the variable of this number may: the first entry where it may not is the fault.
pub(crate) fn check_entries(
    number: u32,
    variable: &Variable,
    coefficients: &[Frac],
) -> Result<(), CertFault>
    ensures { Checked (each_below (entries_of (sides_in variable.now)) (entry_check (demanded variable.now) (sides_in variable.now) coefficients.now number)) result }
{
    let attribute = variable.demanded();
    let shape = variable.shape;
    for entry in 0..shape.size() {
        check_entry(attribute, shape, coefficients, number, entry)?;
    }
    Ok(())
}
