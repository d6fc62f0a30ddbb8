//! Linear forms over unknowns, with any coefficients.
ghost use Rattle.std.specs.Prelude.{◌≡◌, IfOk, [], ◌∷◌, false};
ghost use Rattle.dcx_linear.specs.Changes.{IsAllowed};
ghost use Rattle.dcx_linear.specs.Stops.{Gives};

use crate::change::Change;
use crate::coef::Coef;
use crate::param_term::is_zero;
use crate::stop::CoefStop;
use crate::term::{Term, change_terms, copy_terms, sum_terms};
use dcx_frac::Frac;
use std::alloc::{AllocError, Global};
use std::cmp::Ordering;
use std::marker::Model;

/// A coefficient times an unknown.
#[derive(Drop)]
pub struct FormTerm<C> {
    /// The unknown, counted from 0.
    pub unknown: u32,
    /// By how much it is multiplied.
    pub coefficient: C,
}

/// Terms whose unknowns rise, none with the coefficient 0.
#[derive(Drop)]
pub struct FormTerms<C: Coef> {
    items: Vec<FormTerm<C>>,
}

impl<C: Coef> Model for FormTerms<C> {
    ghost use Rattle.std.specs.Prelude.{List};
    ghost use Rattle.dcx_linear.specs.declared.form.FormTerm.{FormTerm};
    ghost use Rattle.dcx_linear.specs.FormTerms.{HoldsUnknowns};

    ghost Value = { List (FormTerm C) };

    ghost view = { λ x. x.items.items };

    ghost invariant = { λ x. HoldsUnknowns C.number_of x.items.items };
}

/// A linear form: a constant, and coefficients at unknowns.
#[derive(Drop)]
pub struct Form<C: Coef> {
    /// The number where every unknown is 0.
    pub constant: C,
    /// The coefficients, unknowns rising.
    pub terms: FormTerms<C>,
}

impl<C: Coef> FormTerms<C> {
    ghost use Rattle.dcx_linear.specs.FormTerms.{HoldsUnknowns, has_zero_coefficient};

    /// The list of these terms. Takes no memory.
    pub fn from_vec(items: Vec<FormTerm<C>>) -> FormTerms<C>
        requires { HoldsUnknowns C.number_of items.items }
        ensures { result ≡ items.items }
    {
        FormTerms { items }
    }

    /// The list without terms. Takes no memory.
    pub fn empty(alloc: Global) -> FormTerms<C>
        ensures { result ≡ [] }
    {
        FormTerms {
            items: Vec::new(alloc),
        }
    }

    /// The list of one term, whose coefficient isn't 0.
    pub(crate) fn one(alloc: Global, term: FormTerm<C>) -> Result<FormTerms<C>, AllocError>
        requires { has_zero_coefficient C.number_of term ≡ false }
        ensures { IfOk result (λ l. l ≡ term ∷ []) }
    {
        let mut items = Vec::new(alloc);
        items.push(term)?;
        Ok(FormTerms { items })
    }

    /// The terms as a `Vec`. Takes no memory.
    pub fn into_vec(self) -> Vec<FormTerm<C>>
        ensures items { result.items ≡ self }
        ensures sparse { HoldsUnknowns C.number_of self }
    {
        self.items
    }

    /// The terms. Unknowns rise, and no coefficient is 0.
    pub fn as_slice(&self) -> &[FormTerm<C>]
        ensures items { result.now ≡ self.now }
        ensures sparse { HoldsUnknowns C.number_of self.now }
    {
        self.items.as_slice()
    }
}

impl<C: Coef> Term for FormTerm<C> {
    ghost use Rattle.dcx_linear.specs.FormTerms.{unknown_of, has_zero_coefficient, sum_gives_unknown, change_gives_unknown};
    ghost use Rattle.dcx_linear.specs.FormTerms.{unknown_sum_key, unknown_change_key};

    ghost key = { unknown_of };

    ghost is_zero = { has_zero_coefficient C.number_of };

    ghost sum_gives = { sum_gives_unknown C.sum_gives };

    ghost change_gives = { change_gives_unknown C.change_gives };

    fn order(&self, other: &Self) -> Ordering {
        self.unknown.cmp(&other.unknown)
    }

    fn vanishes(&self) -> bool {
        match self.coefficient.as_number() {
            None => false,
            Some(number) => is_zero(&number),
        }
    }

    fn copy(&self, alloc: Global) -> Result<Self, AllocError> {
        Ok(FormTerm {
            unknown: self.unknown,
            coefficient: self.coefficient.copy(alloc)?,
        })
    }

    fn sum(&self, alloc: Global, other: &Self) -> Result<Self, CoefStop> {
        Ok(FormTerm {
            unknown: self.unknown,
            coefficient: self.coefficient.add(alloc, &other.coefficient)?,
        })
    }

    fn changed(&self, alloc: Global, change: Change) -> Result<Self, CoefStop> {
        let coefficient = match change {
            Change::Scale(by) => self.coefficient.scale(alloc, &by)?,
            Change::Divide(by) => self.coefficient.divide(alloc, &by)?,
        };
        Ok(FormTerm {
            unknown: self.unknown,
            coefficient,
        })
    }

    ghost sum_key = { unknown_sum_key C.sum_gives };

    ghost change_key = { unknown_change_key C.change_gives };
}

impl<C: Coef> Form<C> {
    ghost use Rattle.dcx_atom.specs.Formed.{zero_frac};
    ghost use Rattle.dcx_frac.specs.declared.fraction.Frac.{Frac};
    ghost use Rattle.dcx_frac.specs.Formed.{IsZero};
    ghost use Rattle.dcx_linear.specs.declared.change.Change.TheVariants.{Scale, Divide};
    ghost use Rattle.dcx_linear.specs.Forms.{sum_gives_linear, change_gives_linear, is_constant, IsUnknownForm};

    /// The form without unknowns. Takes no memory.
    pub fn number(alloc: Global, constant: C) -> Form<C>
        ensures { result ≡ is_constant constant }
    {
        Form {
            constant,
            terms: FormTerms::empty(alloc),
        }
    }

    /// An unknown itself.
    pub fn unknown(alloc: Global, unknown: u32) -> Result<Form<C>, AllocError>
        ensures { IfOk result (IsUnknownForm C.of_number unknown) }
    {
        let term = FormTerm {
            unknown,
            coefficient: C::number(alloc, Frac::one()),
        };
        Ok(Form {
            constant: C::zero(alloc),
            terms: FormTerms::one(alloc, term)?,
        })
    }

    /// The same form.
    pub fn copy(&self, alloc: Global) -> Result<Form<C>, AllocError>
        ensures { IfOk result (λ f. f ≡ self.now) }
    {
        Ok(Form {
            constant: self.constant.copy(alloc)?,
            terms: FormTerms::from_vec(copy_terms(alloc, self.terms.as_slice())?),
        })
    }

    /// The sum: the constants, and then the coefficients, unknowns rising.
    ///
    /// `Passes` where an operation passes 128 bits: the first one.
    pub fn add(&self, alloc: Global, other: &Form<C>) -> Result<Form<C>, CoefStop>
        ensures { Gives result (sum_gives_linear C.number_of C.sum_gives self.now other.now) }
    {
        let terms = self.terms.as_slice();
        let other_terms = other.terms.as_slice();
        let constant = self.constant.add(alloc, &other.constant)?;
        let sum = sum_terms(alloc, terms, other_terms)?;
        Ok(Form {
            constant,
            terms: FormTerms::from_vec(sum),
        })
    }

    /// The product with a fraction, which stands on the left: the constant, and then the coefficients, unknowns rising.
    ///
    /// `Passes` where an operation passes 128 bits: the first one.
    pub fn scale(&self, alloc: Global, by: &Frac) -> Result<Form<C>, CoefStop>
        ensures { Gives result (change_gives_linear C.number_of C.change_gives (Scale by.now) self.now) }
    {
        let terms = self.terms.as_slice();
        let constant = self.constant.scale(alloc, by)?;
        let changed = change_terms(alloc, terms, Change::Scale(*by))?;
        Ok(Form {
            constant,
            terms: FormTerms::from_vec(changed),
        })
    }

    /// The quotient by a fraction that isn't 0: the constant, and then the coefficients, unknowns rising.
    ///
    /// `Passes` where an operation passes 128 bits: the first one.
    pub fn divide(&self, alloc: Global, by: &Frac) -> Result<Form<C>, CoefStop>
        requires { ¬ (IsZero by.now) }
        ensures { Gives result (change_gives_linear C.number_of C.change_gives (Divide by.now) self.now) }
    {
        let terms = self.terms.as_slice();
        let constant = self.constant.divide(alloc, by)?;
        let changed = change_terms(alloc, terms, Change::Divide(*by))?;
        Ok(Form {
            constant,
            terms: FormTerms::from_vec(changed),
        })
    }
}
