//! Rows with affine coefficients, at a setting.
ghost use Rattle.std.specs.Prelude.{◌≡◌, ℕ, Ok, Err, IfOk, length};
ghost use Rattle.std.specs.List.{All};
ghost use Rattle.dcx_frac.specs.declared.fraction.Frac.{Frac};
ghost use Rattle.dcx_linear.specs.declared.form.Form.{Form};
ghost use Rattle.dcx_linear.specs.MapStops.{GivesAt, GivesAtBy};
ghost use Rattle.dcx_linear.specs.FormsAt.{IsListedRow, IsListedForm, form_at, form_on_row, rows_at, program_gives};

use crate::form::Form;
use crate::map_stop::MapStop;
use crate::param_form::ParamForm;
use crate::row::{Row, RowList, UnknownKinds};
use crate::rows::Rows;
use crate::stop::CoefStop;
use dcx_frac::Frac;
use dcx_point::Setting;
use std::alloc::{AllocError, Global};

/// The form at a setting; where an operation passes 128 bits, the row is told.
fn at_row(
    alloc: Global,
    row: usize,
    form: &Form<ParamForm>,
    setting: &Setting,
) -> Result<Form<Frac>, MapStop>
    requires { IsListedForm setting.now form.now }
    ensures { GivesAt result (λ r. r ≡ form_on_row setting.now row form.now) }
{
    match form.at(alloc, setting) {
        Ok(numbers) => Ok(numbers),
        Err(CoefStop::Passes(passes)) => Err(MapStop::Passes { row, passes }),
        Err(CoefStop::Memory) => Err(MapStop::Memory),
    }
}

/// The rows at a setting, in order.
fn at_rows(
    alloc: Global,
    rows: &[Row<ParamForm>],
    setting: &Setting,
) -> Result<Vec<Row<Frac>>, MapStop>
    requires { All (IsListedRow setting.now) rows.now }
    ensures { GivesAtBy result (λ v. v.items) (λ r. r ≡ rows_at setting.now 0 rows.now) }
{
    let mut numbers = Vec::new(alloc);
    'rows: for (index, row) in rows.iter().enumerate() {
        let kind = row.kind;
        let form = at_row(alloc, index, &row.form, setting)?;
        numbers.push(Row { kind, form })?;
    }
    Ok(numbers)
}

/// The same kinds.
fn copy_kinds(alloc: Global, kinds: &UnknownKinds) -> Result<UnknownKinds, AllocError>
    ensures { IfOk result (λ k. k ≡ kinds.now) }
{
    Ok(UnknownKinds::from_vec(Vec::from_slice(alloc, kinds.as_slice())?))
}

impl Rows<ParamForm> {
    /// The rows at a setting: the rows in order, and then what is to be small. The kinds stay.
    ///
    /// `Passes` where an operation passes 128 bits: the first one, with its row.
    pub fn at(&self, alloc: Global, setting: &Setting) -> Result<Rows<Frac>, MapStop>
        requires rows { All (IsListedRow setting.now) self.now.rows }
        requires objective { IsListedForm setting.now self.now.objective }
        ensures { GivesAtBy result (λ q. (q.rows, q.objective, q.kinds)) (program_gives setting.now (self.now.rows, self.now.objective, self.now.kinds)) }
    {
        let rows = self.rows.as_slice();
        let numbers = at_rows(alloc, rows, setting)?;
        let objective = at_row(alloc, rows.len(), &self.objective, setting)?;
        Ok(Rows {
            rows: RowList::from_vec(numbers),
            objective,
            kinds: copy_kinds(alloc, &self.kinds)?,
        })
    }
}
