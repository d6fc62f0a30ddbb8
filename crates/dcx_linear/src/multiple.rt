//! A coefficient times a form whose coefficients are numbers.
ghost use Rattle.std.specs.Prelude.{◌≡◌, IsSome};
ghost use Rattle.std.specs.List.{All};
ghost use Rattle.dcx_linear.specs.Stops.{Gives, GivesBy};
ghost use Rattle.dcx_linear.specs.Terms.{ChangesTerms};
ghost use Rattle.dcx_linear.specs.FormTerms.{unknown_of, has_zero_coefficient, HoldsUnknowns};
ghost use Rattle.dcx_linear.specs.Multiples.{is_number_term, HasNumbers, times_number, times_unknown, multiple_gives};

use crate::coef::Coef;
use crate::form::{Form, FormTerm, FormTerms};
use crate::stop::CoefStop;
use crate::term::push_nonzero;
use std::alloc::Global;

/// The coefficient times a number.
fn times<C: Coef>(alloc: Global, coefficient: &C, number: &C) -> Result<C, CoefStop>
    requires { IsSome (C.number_of number.now) }
    ensures { Gives result (times_number C.number_of C.change_gives coefficient.now number.now) }
{
    match number.as_number() {
        None => unreachable!(),
        Some(by) => coefficient.scale(alloc, &by),
    }
}

/// The coefficient times the number of the term, at its unknown.
fn times_term<C: Coef>(
    alloc: Global,
    coefficient: &C,
    term: &FormTerm<C>,
) -> Result<FormTerm<C>, CoefStop>
    requires { is_number_term C.number_of term.now }
    ensures { Gives result (times_unknown C.number_of C.change_gives coefficient.now term.now) }
{
    Ok(FormTerm {
        unknown: term.unknown,
        coefficient: times(alloc, coefficient, &term.coefficient)?,
    })
}

/// The coefficient times each number of the terms, without zeros.
fn times_terms<C: Coef>(
    alloc: Global,
    coefficient: &C,
    terms: &[FormTerm<C>],
) -> Result<Vec<FormTerm<C>>, CoefStop>
    requires sparse { HoldsUnknowns C.number_of terms.now }
    requires numbers { All (is_number_term C.number_of) terms.now }
    ensures { GivesBy result (λ v. v.items) (ChangesTerms unknown_of (has_zero_coefficient C.number_of) (times_unknown C.number_of C.change_gives coefficient.now) terms.now) }
{
    let mut products = Vec::new(alloc);
    'terms: for term in terms {
        push_nonzero(&mut products, times_term(alloc, coefficient, term)?)?;
    }
    Ok(products)
}

impl<C: Coef> Form<C> {
    /// A coefficient times this form, whose coefficients are numbers: times the constant, and then times the coefficients,
    /// unknowns rising. The number stands on the left. No 0 is listed.
    ///
    /// `Passes` where an operation passes 128 bits: the first one.
    pub fn multiple(&self, alloc: Global, coefficient: &C) -> Result<Form<C>, CoefStop>
        requires { HasNumbers C.number_of self.now }
        ensures { Gives result (multiple_gives C.number_of C.change_gives coefficient.now self.now) }
    {
        let terms = self.terms.as_slice();
        let constant = times(alloc, coefficient, &self.constant)?;
        let products = times_terms(alloc, coefficient, terms)?;
        Ok(Form {
            constant,
            terms: FormTerms::from_vec(products),
        })
    }
}
