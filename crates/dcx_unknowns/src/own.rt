//! Which entries of a variable have an unknown of their own.
ghost use Rattle.std.specs.Prelude.{◌≡◌, ◌<◌, ◌≤◌};
ghost use Rattle.dcx_shape.specs.Sides.{entries_of};
ghost use Rattle.dcx_unknowns.specs.Own.{is_own, own_count, mirror_of};
ghost use Rattle.dcx_unknowns.specs.Unknowns.{demanded, sides_in, kind_of};

use dcx_linear::UnknownKind;
use dcx_tree::{Attribute, Variable};

/// The kind of the unknowns of a variable of which this is demanded.
pub(crate) fn kind_of(attribute: Attribute) -> UnknownKind
    ensures { result ≡ kind_of attribute }
{
    match attribute {
        Attribute::Nonneg => UnknownKind::Nonneg,
        Attribute::Nonpos => UnknownKind::Nonpos,
        _ => UnknownKind::Free,
    }
}

/// Whether an entry of a variable has an unknown of its own.
pub(crate) fn is_own(variable: &Variable, entry: u32) -> bool
    requires { entry < entries_of (sides_in variable.now) }
    ensures { result ≡ is_own (demanded variable.now) (sides_in variable.now) entry }
{
    let columns = variable.shape.cols();
    let row = entry / columns;
    let column = entry % columns;
    match variable.demanded() {
        Attribute::Symmetric => row <= column,
        Attribute::Diag => row == column,
        _ => true,
    }
}

/// The place of the mirror of an entry.
pub(crate) fn mirror(variable: &Variable, entry: u32) -> u32
    requires { entry < entries_of (sides_in variable.now) }
    ensures { result ≡ mirror_of (sides_in variable.now) entry }
{
    let columns = variable.shape.cols();
    let column = entry % columns;
    column * columns + entry / columns
}

/// How many entries of a variable have an unknown of their own.
pub(crate) fn own_count(variable: &Variable) -> u32
    ensures count { result ≡ own_count (demanded variable.now) (sides_in variable.now) }
    ensures few { result ≤ 20000 }
{
    let mut count = 0u32;
    'entries: for entry in 0..variable.shape.size() {
        if is_own(variable, entry) {
            count += 1;
        }
    }
    count
}
