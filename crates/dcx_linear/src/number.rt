//! Fractions as coefficients.
use crate::coef::Coef;
use crate::entry::entry_at;
use crate::stop::CoefStop;
use dcx_frac::Frac;
use dcx_point::Setting;
use dcx_shape::Name;
use std::alloc::{AllocError, Global};

impl Coef for Frac {
    ghost use Rattle.std.specs.Prelude.{◌≡◌, ℕ, List, Option, Some, IsSome, IfSome, refl};
    ghost use Rattle.dcx_frac.specs.Frac.{value};
    ghost use Rattle.dcx_frac.specs.Results.{sum_of};
    ghost use Rattle.dcx_linear.specs.Changes.{changed_frac};
    ghost use Rattle.dcx_linear.specs.Parameters.{entry_of};
    ghost use Rattle.dcx_linear.specs.NumberLaws.{told_number_lem, parameter_value_lem, sum_value_lem, change_value_lem, one_answer};

    ghost value_at = { λ f p. value f };

    ghost number_of = { λ f. Some f };

    ghost of_number = { λ f. f };

    ghost can_read = { λ setting name entry. IsSome (entry_of setting name entry) };

    ghost parameter_gives = { λ position name entry setting f. entry_of setting name entry ≡ Some f };

    ghost may_be = { λ setting name entry q. IfSome (entry_of setting name entry) (λ f. value f ≡ q) };

    ghost sum_gives = { λ a b r. r ≡ sum_of a b };

    ghost change_gives = { λ change a r. r ≡ changed_frac change a };

    ghost is_named_by = { λ names f. Unit {0} };

    fn zero(_alloc: Global) -> Self {
        Frac::zero()
    }

    fn number(_alloc: Global, value: Frac) -> Self {
        value
    }

    fn parameter(
        _alloc: Global,
        _position: u32,
        name: &Name,
        entry: u32,
        setting: &Setting,
    ) -> Result<Self, AllocError> {
        Ok(entry_at(setting, name, entry))
    }

    fn as_number(&self) -> Option<Frac> {
        Some(*self)
    }

    fn copy(&self, _alloc: Global) -> Result<Self, AllocError> {
        Ok(*self)
    }

    fn add(&self, _alloc: Global, other: &Self) -> Result<Self, CoefStop> {
        Ok(Frac::add(*self, *other)?)
    }

    fn plus(self, _alloc: Global, other: &Self) -> Result<Self, CoefStop> {
        Ok(Frac::add(self, *other)?)
    }

    fn scale(&self, _alloc: Global, by: &Frac) -> Result<Self, CoefStop> {
        Ok(Frac::mul(*by, *self)?)
    }

    fn divide(&self, _alloc: Global, by: &Frac) -> Result<Self, CoefStop> {
        Ok(Frac::div(*self, *by)?)
    }

    ghost number_value = { λ x p. refl };

    ghost number_told = { λ x. refl };

    ghost told_number = { told_number_lem };

    ghost parameter_value = { parameter_value_lem };

    ghost sum_value = { sum_value_lem };

    ghost change_value = { change_value_lem };

    ghost one_sum = { λ a b r s. one_answer (sum_of a b) r s };

    ghost one_change = { λ change a r s. one_answer (changed_frac change a) r s };

    ghost number_named = { λ names x. tt };

    ghost parameter_named = { λ names position name entry setting c h k. tt };

    ghost sum_named = { λ names a b c h k l. tt };

    ghost change_named = { λ names change a c h k. tt };
}
