//! Forms with affine coefficients, at a setting.
ghost use Rattle.std.specs.Prelude.{◌≡◌, Ok, Err};
ghost use Rattle.std.specs.List.{All};
ghost use Rattle.dcx_linear.specs.Stops.{Gives, GivesBy};
ghost use Rattle.dcx_linear.specs.ParamForms.{number_at};
ghost use Rattle.dcx_linear.specs.FormsAt.{IsListedTerm, IsListedForm, terms_at, form_at};

use crate::form::{Form, FormTerm, FormTerms};
use crate::param_form::ParamForm;
use crate::stop::CoefStop;
use crate::term::push_nonzero;
use dcx_frac::Frac;
use dcx_point::Setting;
use std::alloc::Global;

/// The terms at a setting, without zeros.
fn at_terms(
    alloc: Global,
    terms: &[FormTerm<ParamForm>],
    setting: &Setting,
) -> Result<Vec<FormTerm<Frac>>, CoefStop>
    requires { All (IsListedTerm setting.now) terms.now }
    ensures { GivesBy result (λ v. v.items) (λ r. r ≡ terms_at setting.now terms.now) }
{
    let mut numbers = Vec::new(alloc);
    'terms: for term in terms {
        let coefficient = term.coefficient.at(setting)?;
        let unknown = term.unknown;
        push_nonzero(
            &mut numbers,
            FormTerm {
                unknown,
                coefficient,
            },
        )?;
    }
    Ok(numbers)
}

impl Form<ParamForm> {
    /// The form at a setting: the constant, and then the coefficients, unknowns rising. No 0 is listed.
    ///
    /// `Passes` where an operation passes 128 bits: the first one.
    pub fn at(&self, alloc: Global, setting: &Setting) -> Result<Form<Frac>, CoefStop>
        requires { IsListedForm setting.now self.now }
        ensures { Gives result (λ r. r ≡ form_at setting.now self.now) }
    {
        let terms = self.terms.as_slice();
        let constant = self.constant.at(setting)?;
        let numbers = at_terms(alloc, terms, setting)?;
        Ok(Form {
            constant,
            terms: FormTerms::from_vec(numbers),
        })
    }
}
