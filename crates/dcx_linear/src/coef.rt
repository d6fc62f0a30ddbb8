//! The trait of coefficients: fractions, and numbers that are affine in parameter entries.
ghost use Rattle.std.specs.Prelude.{◌≡◌, ℕ, List, Option, Some, Result, Ok, IfOk};
ghost use Rattle.dcx_math.specs.Rational.{ℚ, ◌+ℚ◌};
ghost use Rattle.dcx_frac.specs.declared.fraction.Frac.{Frac};
ghost use Rattle.dcx_frac.specs.declared.fraction.Passes.{Passes};
ghost use Rattle.dcx_frac.specs.Frac.{value as exact};
ghost use Rattle.dcx_frac.specs.Formed.{IsZero};
ghost use Rattle.dcx_atom.specs.Formed.{zero_frac};
ghost use Rattle.dcx_point.specs.Pairs.{Pairs};
ghost use Rattle.dcx_linear.specs.declared.change.Change.{Change};
ghost use Rattle.dcx_linear.specs.declared.change.Change.TheVariants.{Scale, Divide};
ghost use Rattle.dcx_linear.specs.Changes.{changed};
ghost use Rattle.dcx_linear.specs.Parameters.{Parameters, Names, IsNameOf};
ghost use Rattle.dcx_linear.specs.Stops.{Gives};

use crate::stop::CoefStop;
use dcx_frac::Frac;
use dcx_point::Setting;
use dcx_shape::Name;
use std::alloc::{AllocError, Global};

/// A coefficient: a number for each assignment of numbers to the parameter entries.
pub trait Coef: Drop {
    /// The number that it is at an assignment.
    ghost value_at: { Self → Parameters → ℚ };

    /// The fraction that it is, where no parameter entry is listed.
    ghost number_of: { Self → Option Frac };

    /// The coefficient that is this fraction.
    ghost of_number: { Frac → Self };

    /// The entry of the parameter with this name may be asked for.
    ghost can_read: { Pairs → List ℕ → ℕ → Type 0 };

    /// The entry of a parameter, by position and name, at a setting.
    ghost parameter_gives: { ℕ → List ℕ → ℕ → Pairs → Self → Type 0 };

    /// The number may stand for the entry of the parameter with this name.
    ghost may_be: { Pairs → List ℕ → ℕ → ℚ → Type 0 };

    /// What adding answers: the sum, or the first operation that passes 128 bits.
    ghost sum_gives: { Self → Self → Result Self Passes → Type 0 };

    /// What multiplying or dividing by a fraction answers: the number, or the first operation that passes 128 bits.
    ghost change_gives: { Change → Self → Result Self Passes → Type 0 };

    /// Each entry is listed under the name that the list has at its parameter's position.
    ghost is_named_by: { Names → Self → Type 0 };

    /// The number 0. Takes no memory.
    fn zero(alloc: Global) -> Self
        ensures { result ≡ of_number zero_frac };

    /// A number. Takes no memory.
    fn number(alloc: Global, value: Frac) -> Self
        ensures { result ≡ of_number value };

    /// The entry of a parameter, given by its position in order of declaration and its name.
    fn parameter(
        alloc: Global,
        position: u32,
        name: &Name,
        entry: u32,
        setting: &Setting,
    ) -> Result<Self, AllocError>
        requires { can_read setting.now name.now entry }
        ensures { IfOk result (parameter_gives position name.now entry setting.now) };

    /// The fraction that it is; `None` exactly where a parameter entry is listed. Takes no memory.
    fn as_number(&self) -> Option<Frac>
        ensures { result ≡ number_of self.now };

    /// The same coefficient.
    fn copy(&self, alloc: Global) -> Result<Self, AllocError>
        ensures { IfOk result (λ c. c ≡ self.now) };

    /// The sum.
    ///
    /// `Passes` where an operation passes 128 bits: the first one.
    fn add(&self, alloc: Global, other: &Self) -> Result<Self, CoefStop>
        ensures { Gives result (sum_gives self.now other.now) };

    /// The same sum, of a coefficient that is given away: one behind whose entries the other's stand grows in its place.
    ///
    /// `Passes` where an operation passes 128 bits: the first one.
    fn plus(self, alloc: Global, other: &Self) -> Result<Self, CoefStop>
        ensures { Gives result (sum_gives self other.now) };

    /// The product with a fraction, which stands on the left.
    ///
    /// `Passes` where an operation passes 128 bits: the first one.
    fn scale(&self, alloc: Global, by: &Frac) -> Result<Self, CoefStop>
        ensures { Gives result (change_gives (Scale by.now) self.now) };

    /// The quotient by a fraction that isn't 0.
    ///
    /// `Passes` where an operation passes 128 bits: the first one.
    fn divide(&self, alloc: Global, by: &Frac) -> Result<Self, CoefStop>
        requires { ¬ (IsZero by.now) }
        ensures { Gives result (change_gives (Divide by.now) self.now) };

    /// A number is itself at every assignment.
    ghost number_value: { (x : Frac) (p : Parameters) → value_at (of_number x) p ≡ exact x };

    /// A number is told.
    ghost number_told: { (x : Frac) → number_of (of_number x) ≡ Some x };

    /// What is told is the number.
    ghost told_number: { (c : Self) (x : Frac) → number_of c ≡ Some x → c ≡ of_number x };

    /// A parameter's entry is what stands for it.
    ghost parameter_value: { (position : ℕ) (name : List ℕ) (entry : ℕ) (setting : Pairs) (c : Self) (p : Parameters) → parameter_gives position name entry setting c
        → may_be setting name entry (p position entry) → value_at c p ≡ p position entry };

    /// A sum is the sum at every assignment.
    ghost sum_value: { (a b c : Self) (p : Parameters) → sum_gives a b (Ok c) → value_at c p ≡ value_at a p +ℚ value_at b p };

    /// A product or quotient is so at every assignment.
    ghost change_value: { (change : Change) (a c : Self) (p : Parameters) → change_gives change a (Ok c) → value_at c p ≡ changed change (value_at a p) };

    /// Adding has one answer.
    ghost one_sum: { (a b : Self) (r s : Result Self Passes) → sum_gives a b r → sum_gives a b s → r ≡ s };

    /// Multiplying and dividing have one answer.
    ghost one_change: { (change : Change) (a : Self) (r s : Result Self Passes) → change_gives change a r → change_gives change a s → r ≡ s };

    /// A number lists no entry.
    ghost number_named: { (names : Names) (x : Frac) → is_named_by names (of_number x) };

    /// A parameter's entry is listed under its name.
    ghost parameter_named: { (names : Names) (position : ℕ) (name : List ℕ) (entry : ℕ) (setting : Pairs) (c : Self) → IsNameOf names position name
        → parameter_gives position name entry setting c → is_named_by names c };

    /// A sum keeps the names.
    ghost sum_named: { (names : Names) (a b c : Self) → sum_gives a b (Ok c) → is_named_by names a → is_named_by names b → is_named_by names c };

    /// A product or quotient keeps the names.
    ghost change_named: { (names : Names) (change : Change) (a c : Self) → change_gives change a (Ok c) → is_named_by names a → is_named_by names c };
}
