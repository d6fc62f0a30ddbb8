//! Terms of affine numbers: a coefficient at an entry of a parameter.
ghost use Rattle.std.specs.Prelude.{◌≡◌, IfOk};
ghost use Rattle.dcx_linear.specs.Changes.{IsAllowed, changed_frac, zero_test};

use crate::change::Change;
use crate::stop::CoefStop;
use crate::term::Term;
use dcx_frac::{Frac, Passes};
use dcx_shape::{Name, copy_name};
use std::alloc::{AllocError, Global};
use std::cmp::Ordering;
use std::marker::Model;

/// A coefficient times an entry of a parameter.
#[derive(Drop)]
pub struct ParamTerm {
    /// The position of the parameter in order of declaration, from 0.
    pub position: u32,
    /// Its name.
    pub name: Name,
    /// The entry, in row-major order.
    pub entry: u32,
    /// By how much it is multiplied.
    pub coefficient: Frac,
}

/// Terms whose positions and entries rise, none with the coefficient 0.
#[derive(Drop)]
pub struct ParamTerms {
    items: Vec<ParamTerm>,
}

impl Model for ParamTerms {
    ghost use Rattle.std.specs.Prelude.{List};
    ghost use Rattle.dcx_linear.specs.declared.param_term.ParamTerm.{ParamTerm};
    ghost use Rattle.dcx_linear.specs.ParamTerms.{HoldsTerms};

    ghost Value = { List ParamTerm };

    ghost view = { λ x. x.items.items };

    ghost invariant = { λ x. HoldsTerms x.items.items };
}

impl ParamTerms {
    ghost use Rattle.std.specs.Prelude.{[], ◌∷◌, false};
    ghost use Rattle.dcx_linear.specs.ParamTerms.{HoldsTerms, has_zero};

    /// The list of these terms. Takes no memory.
    pub fn from_vec(items: Vec<ParamTerm>) -> ParamTerms
        requires { HoldsTerms items.items }
        ensures { result ≡ items.items }
    {
        ParamTerms { items }
    }

    /// The list without terms. Takes no memory.
    pub(crate) fn empty(alloc: Global) -> ParamTerms
        ensures { result ≡ [] }
    {
        ParamTerms {
            items: Vec::new(alloc),
        }
    }

    /// The list of one term, whose coefficient isn't 0.
    pub(crate) fn one(alloc: Global, term: ParamTerm) -> Result<ParamTerms, AllocError>
        requires { has_zero term ≡ false }
        ensures { IfOk result (λ l. l ≡ term ∷ []) }
    {
        let mut items = Vec::new(alloc);
        items.push(term)?;
        Ok(ParamTerms { items })
    }

    /// The terms as a `Vec`. Takes no memory.
    pub fn into_vec(self) -> Vec<ParamTerm>
        ensures items { result.items ≡ self }
        ensures sparse { HoldsTerms self }
    {
        self.items
    }

    /// The terms. Positions and entries rise, and no coefficient is 0.
    pub fn as_slice(&self) -> &[ParamTerm]
        ensures items { result.now ≡ self.now }
        ensures sparse { HoldsTerms self.now }
    {
        self.items.as_slice()
    }
}

/// Whether the fraction is 0.
pub(crate) fn is_zero(x: &Frac) -> bool
    ensures { result ≡ zero_test x.now }
{
    x.is_zero()
}

/// The fraction multiplied or divided.
pub(crate) fn change_number(x: Frac, change: Change) -> Result<Frac, Passes>
    requires { IsAllowed change }
    ensures { result ≡ changed_frac change x }
{
    match change {
        Change::Scale(by) => Frac::mul(by, x),
        Change::Divide(by) => Frac::div(x, by),
    }
}

impl ParamTerm {
    ghost use Rattle.dcx_frac.specs.declared.fraction.Frac.{Frac};
    ghost use Rattle.dcx_linear.specs.ParamTerms.{with_coefficient};

    /// The term with this coefficient.
    fn with(&self, alloc: Global, coefficient: Frac) -> Result<ParamTerm, AllocError>
        ensures { IfOk result (λ t. t ≡ with_coefficient self.now coefficient) }
    {
        Ok(ParamTerm {
            position: self.position,
            name: copy_name(alloc, &self.name)?,
            entry: self.entry,
            coefficient,
        })
    }
}

impl Term for ParamTerm {
    ghost use Rattle.dcx_linear.specs.ParamTerms.{key_of, has_zero, sum_gives_term, change_gives_term};
    ghost use Rattle.dcx_linear.specs.ParamTermLaws.{sum_key_lem, change_key_lem};

    ghost key = { key_of };

    ghost is_zero = { has_zero };

    ghost sum_gives = { sum_gives_term };

    ghost change_gives = { change_gives_term };

    fn order(&self, other: &Self) -> Ordering {
        let entry = self.entry;
        let other_entry = other.entry;
        self.position
            .cmp(&other.position)
            .then(entry.cmp(&other_entry))
    }

    fn vanishes(&self) -> bool {
        is_zero(&self.coefficient)
    }

    fn copy(&self, alloc: Global) -> Result<Self, AllocError> {
        self.with(alloc, self.coefficient)
    }

    fn sum(&self, alloc: Global, other: &Self) -> Result<Self, CoefStop> {
        // so that the proof knows both to be below 2^32
        let _entry = self.entry;
        let _other_entry = other.entry;
        let coefficient = Frac::add(self.coefficient, other.coefficient)?;
        Ok(self.with(alloc, coefficient)?)
    }

    fn changed(&self, alloc: Global, change: Change) -> Result<Self, CoefStop> {
        let coefficient = change_number(self.coefficient, change)?;
        Ok(self.with(alloc, coefficient)?)
    }

    ghost sum_key = { sum_key_lem };

    ghost change_key = { change_key_lem };
}
