//! Affine numbers: coefficients that depend on parameters.
use crate::change::Change;
use crate::coef::Coef;
use crate::entry::entry_at;
use crate::param_term::{ParamTerm, ParamTerms, change_number};
use crate::stop::CoefStop;
use crate::term::{added_terms, change_terms, copy_terms, sum_terms};
use dcx_frac::{Frac, Passes};
use dcx_point::Setting;
use dcx_shape::{Name, copy_name};
use std::alloc::{AllocError, Global};

/// An affine number: a constant, and coefficients at entries of parameters.
#[derive(Drop)]
pub struct ParamForm {
    /// The number where every entry is 0.
    pub constant: Frac,
    /// The coefficients, positions and entries rising.
    pub terms: ParamTerms,
}

impl ParamForm {
    ghost use Rattle.std.specs.Prelude.{◌≡◌};
    ghost use Rattle.dcx_linear.specs.Changes.{IsAllowed};
    ghost use Rattle.dcx_linear.specs.Stops.{Gives};
    ghost use Rattle.dcx_linear.specs.ParamForms.{IsListedBy, number_at, change_gives_form};

    /// The number at a setting: to the constant each coefficient times its entry is added, entries rising.
    ///
    /// `Passes` where an operation passes 128 bits: the first one. Takes no memory.
    pub fn at(&self, setting: &Setting) -> Result<Frac, Passes>
        requires { IsListedBy setting.now self.now }
        ensures { result ≡ number_at setting.now self.now }
    {
        let mut number = self.constant;
        'terms: for term in self.terms.as_slice() {
            let entry = entry_at(setting, &term.name, term.entry);
            let product = Frac::mul(term.coefficient, entry)?;
            number = Frac::add(number, product)?;
        }
        Ok(number)
    }

    /// The number multiplied or divided.
    fn changed(&self, alloc: Global, change: Change) -> Result<ParamForm, CoefStop>
        requires { IsAllowed change }
        ensures { Gives result (change_gives_form change self.now) }
    {
        let terms = self.terms.as_slice();
        let constant = change_number(self.constant, change)?;
        let changed = change_terms(alloc, terms, change)?;
        Ok(ParamForm {
            constant,
            terms: ParamTerms::from_vec(changed),
        })
    }
}

impl Coef for ParamForm {
    ghost use Rattle.dcx_linear.specs.ParamForms.{form_value, number_of_form, form_of_number, IsEntryForm, sum_gives_form, change_gives_form, IsNamedForm};
    ghost use Rattle.dcx_linear.specs.ParamLaws.{form_number_value, form_told_number, form_entry_value, form_sum_value, form_change_value, one_form_sum};
    ghost use Rattle.dcx_linear.specs.ParamLaws.{one_form_change, form_number_named, form_entry_named, form_sum_named, form_change_named};
    ghost use Rattle.std.specs.Prelude.{refl};

    ghost value_at = { form_value };

    ghost number_of = { number_of_form };

    ghost of_number = { form_of_number };

    ghost can_read = { λ setting name entry. Unit {0} };

    ghost parameter_gives = { λ position name entry setting f. IsEntryForm position name entry f };

    ghost may_be = { λ setting name entry q. Unit {0} };

    ghost sum_gives = { sum_gives_form };

    ghost change_gives = { change_gives_form };

    ghost is_named_by = { IsNamedForm };

    fn zero(alloc: Global) -> Self {
        Self::number(alloc, Frac::zero())
    }

    fn number(alloc: Global, value: Frac) -> Self {
        ParamForm {
            constant: value,
            terms: ParamTerms::empty(alloc),
        }
    }

    fn parameter(
        alloc: Global,
        position: u32,
        name: &Name,
        entry: u32,
        _setting: &Setting,
    ) -> Result<Self, AllocError> {
        let term = ParamTerm {
            position,
            name: copy_name(alloc, name)?,
            entry,
            coefficient: Frac::one(),
        };
        Ok(ParamForm {
            constant: Frac::zero(),
            terms: ParamTerms::one(alloc, term)?,
        })
    }

    fn as_number(&self) -> Option<Frac> {
        if self.terms.as_slice().is_empty() {
            Some(self.constant)
        } else {
            None
        }
    }

    fn copy(&self, alloc: Global) -> Result<Self, AllocError> {
        Ok(ParamForm {
            constant: self.constant,
            terms: ParamTerms::from_vec(copy_terms(alloc, self.terms.as_slice())?),
        })
    }

    fn add(&self, alloc: Global, other: &Self) -> Result<Self, CoefStop> {
        let terms = self.terms.as_slice();
        let other_terms = other.terms.as_slice();
        let constant = Frac::add(self.constant, other.constant)?;
        let sum = sum_terms(alloc, terms, other_terms)?;
        Ok(ParamForm {
            constant,
            terms: ParamTerms::from_vec(sum),
        })
    }

    fn plus(self, alloc: Global, other: &Self) -> Result<Self, CoefStop> {
        let ParamForm { constant, terms } = self;
        let terms = terms.into_vec();
        let other_terms = other.terms.as_slice();
        let constant = Frac::add(constant, other.constant)?;
        let sum = added_terms(alloc, terms, other_terms)?;
        Ok(ParamForm {
            constant,
            terms: ParamTerms::from_vec(sum),
        })
    }

    fn scale(&self, alloc: Global, by: &Frac) -> Result<Self, CoefStop> {
        self.changed(alloc, Change::Scale(*by))
    }

    fn divide(&self, alloc: Global, by: &Frac) -> Result<Self, CoefStop> {
        self.changed(alloc, Change::Divide(*by))
    }

    ghost number_value = { form_number_value };

    ghost number_told = { λ x. refl };

    ghost told_number = { form_told_number };

    ghost parameter_value = { form_entry_value };

    ghost sum_value = { form_sum_value };

    ghost change_value = { form_change_value };

    ghost one_sum = { one_form_sum };

    ghost one_change = { one_form_change };

    ghost number_named = { form_number_named };

    ghost parameter_named = { form_entry_named };

    ghost sum_named = { form_sum_named };

    ghost change_named = { form_change_named };
}
