//! Where a parameter stands in affine numbers, forms and rows.
ghost use Rattle.std.specs.Prelude.{◌≡◌};
ghost use Rattle.dcx_range.specs.Standing.{lists, scales_unknown, scales_row};

use dcx_linear::{Form, ParamForm, Row};

/// Whether an affine number lists an entry of the parameter at this position.
fn lists(number: &ParamForm, position: usize) -> bool
    ensures { result ≡ lists position number.now }
{
    number
        .terms
        .as_slice()
        .iter()
        .any(|t| t.position as usize == position)
}

/// Whether the coefficient of an unknown does.
pub(crate) fn scales_unknown(form: &Form<ParamForm>, position: usize) -> bool
    ensures { result ≡ scales_unknown position form.now }
{
    form.terms
        .as_slice()
        .iter()
        .any(|t| lists(&t.coefficient, position))
}

/// Whether that of a row does.
pub(crate) fn scales_row(rows: &[Row<ParamForm>], position: usize) -> bool
    ensures { result ≡ scales_row position rows.now }
{
    rows.iter().any(|r| scales_unknown(&r.form, position))
}
