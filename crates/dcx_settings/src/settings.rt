//! Settings as they are read: lines of named values.

use dcx_frac::Fracs;
use dcx_math::List;
use dcx_shape::{Name, Shape};

/// The value of a parameter.
#[derive(Drop)]
pub struct SettingItem {
    /// The parameter's name.
    pub name: Name,
    /// The shape of the value: a scalar for a number, a vector for a list, a matrix for a list of rows.
    pub shape: Shape,
    /// The numbers, row after row.
    pub numbers: Fracs,
}

/// The values of one line, in order, each under a name of its own.
pub type SettingLine = List<SettingItem>;

/// The settings, one for each line that has a token.
pub type Settings = List<SettingLine>;
