//! Lists of terms with rising keys: their sum, and each term changed. Forms and affine numbers both stand on it.
ghost use Rattle.std.specs.Prelude.{◌≡◌, ℕ, Bool, IsTrue, List, Result, Ok, Err, IfOk, IfErr, OnOk, ◌++◌, ◌∷◌, []};
ghost use Rattle.std.specs.Ordering.{nat_cmp};
ghost use Rattle.dcx_frac.specs.declared.fraction.Passes.{Passes};
ghost use Rattle.dcx_linear.specs.declared.change.Change.{Change};
ghost use Rattle.dcx_linear.specs.Changes.{IsAllowed};
ghost use Rattle.dcx_linear.specs.Stops.{OnPass, Gives, GivesBy};
ghost use Rattle.std.specs.Option.{option_to_list};
ghost use Rattle.dcx_math.specs.Rising.{IsRising};
ghost use Rattle.dcx_linear.specs.Terms.{kept, IsSparse, IsBehind, SumsTerms, ChangesTerms};

use crate::change::Change;
use crate::stop::CoefStop;
use std::alloc::{AllocError, Global};
use std::cmp::Ordering;

/// A coefficient with a key, by which the terms of a list rise.
pub(crate) trait Term: Drop {
    /// The key.
    ghost key: { Self → ℕ };

    /// The coefficient is the number 0.
    ghost is_zero: { Self → Bool };

    /// What forming the sum of the coefficients answers, at one key.
    ghost sum_gives: { Self → Self → Result Self Passes → Type 0 };

    /// What forming the changed coefficient answers.
    ghost change_gives: { Change → Self → Result Self Passes → Type 0 };

    /// How the keys compare.
    fn order(&self, other: &Self) -> Ordering
        ensures { result ≡ nat_cmp (key self.now) (key other.now) };

    /// Whether the coefficient is the number 0.
    fn vanishes(&self) -> bool
        ensures { result ≡ is_zero self.now };

    /// The same term.
    fn copy(&self, alloc: Global) -> Result<Self, AllocError>
        ensures { IfOk result (λ t. t ≡ self.now) };

    /// The term with the sum of the coefficients.
    fn sum(&self, alloc: Global, other: &Self) -> Result<Self, CoefStop>
        requires { key self.now ≡ key other.now }
        ensures { Gives result (sum_gives self.now other.now) };

    /// The term with the coefficient changed.
    fn changed(&self, alloc: Global, change: Change) -> Result<Self, CoefStop>
        requires { IsAllowed change }
        ensures { Gives result (change_gives change self.now) };

    /// A sum has the key of its summands.
    ghost sum_key: { (t u v : Self) → sum_gives t u (Ok v) → key v ≡ key t };

    /// A changed term keeps its key.
    ghost change_key: { (change : Change) (t v : Self) → change_gives change t (Ok v) → key v ≡ key t };
}

/// Puts copies of the terms at the end.
fn push_copies<T: Term>(alloc: Global, list: &mut Vec<T>, terms: &[T]) -> Result<(), AllocError>
    ensures { OnOk result (list.new.items ≡ list.old.items ++ terms.now) }
{
    for term in terms {
        list.push(term.copy(alloc)?)?;
    }
    Ok(())
}

/// Copies of the terms.
pub(crate) fn copy_terms<T: Term>(alloc: Global, terms: &[T]) -> Result<Vec<T>, AllocError>
    ensures { IfOk result (λ v. v.items ≡ terms.now) }
{
    let mut copies = Vec::new(alloc);
    push_copies(alloc, &mut copies, terms)?;
    Ok(copies)
}

/// Puts the term at the end, unless it is 0.
pub(crate) fn push_nonzero<T: Term>(list: &mut Vec<T>, term: T) -> Result<(), AllocError>
    ensures { OnOk result (list.new.items ≡ list.old.items ++ option_to_list (kept T.is_zero term)) }
{
    if !term.vanishes() {
        list.push(term)?;
    }
    Ok(())
}

/// Puts a copy of the term at the end.
fn push_copy<T: Term>(alloc: Global, list: &mut Vec<T>, term: &T) -> Result<(), AllocError>
    ensures { OnOk result (list.new.items ≡ list.old.items ++ term.now ∷ []) }
{
    list.push(term.copy(alloc)?)?;
    Ok(())
}

/// Puts the sum of two terms at the end, unless it is 0.
fn push_term_sum<T: Term>(
    alloc: Global,
    list: &mut Vec<T>,
    left: &T,
    right: &T,
) -> Result<(), CoefStop>
    requires { T.key left.now ≡ T.key right.now }
    ensures sum { OnOk result ((t : T) × T.sum_gives left.now right.now (Ok t) × (list.new.items ≡ list.old.items ++ option_to_list (kept T.is_zero t))) }
    ensures passes { IfErr result (λ stop. OnPass stop (λ passes. T.sum_gives left.now right.now (Err passes))) }
{
    push_nonzero(list, left.sum(alloc, right)?)?;
    Ok(())
}

/// Puts the sum of two lists of terms into the empty list, formed by rising keys.
fn push_sum<T: Term>(alloc: Global, sum: &mut Vec<T>, a: &[T], b: &[T]) -> Result<(), CoefStop>
    requires empty { sum.old.items ≡ [] }
    requires left { IsSparse T.key T.is_zero a.now }
    requires right { IsSparse T.key T.is_zero b.now }
    ensures { GivesBy result (λ _. sum.new.items) (SumsTerms T.key T.is_zero T.sum_gives a.now b.now) }
{
    let mut i = 0;
    let mut j = 0;
    'terms: while i < a.len() && j < b.len() {
        let left = &a[i];
        let right = &b[j];
        match left.order(right) {
            Ordering::Less => {
                push_copy(alloc, sum, left)?;
                i += 1;
            }
            Ordering::Greater => {
                push_copy(alloc, sum, right)?;
                j += 1;
            }
            Ordering::Equal => {
                push_term_sum(alloc, sum, left, right)?;
                i += 1;
                j += 1;
            }
        }
    }
    push_copies(alloc, sum, &a[i..])?;
    push_copies(alloc, sum, &b[j..])?;
    Ok(())
}

/// The sum of two lists of terms, formed by rising keys.
pub(crate) fn sum_terms<T: Term>(alloc: Global, a: &[T], b: &[T]) -> Result<Vec<T>, CoefStop>
    requires left { IsSparse T.key T.is_zero a.now }
    requires right { IsSparse T.key T.is_zero b.now }
    ensures { GivesBy result (λ v. v.items) (SumsTerms T.key T.is_zero T.sum_gives a.now b.now) }
{
    let mut sum = Vec::new(alloc);
    push_sum(alloc, &mut sum, a, b)?;
    Ok(sum)
}

/// Whether the keys of one list stand behind those of the other.
fn goes_on<T: Term>(a: &[T], b: &[T]) -> bool
    requires left { IsRising T.key a.now }
    requires right { IsRising T.key b.now }
    ensures { IsTrue result → IsBehind T.key a.now b.now }
{
    if a.is_empty() || b.is_empty() {
        return true;
    }
    match a[a.len() - 1].order(&b[0]) {
        Ordering::Less => true,
        Ordering::Equal | Ordering::Greater => false,
    }
}

/// The sum of two lists of terms, formed by rising keys. The first one is given away, and the other is put at its end where its keys
/// stand behind: a sum of many terms takes time for each term, and not for each term before it.
pub(crate) fn added_terms<T: Term>(alloc: Global, a: Vec<T>, b: &[T]) -> Result<Vec<T>, CoefStop>
    requires left { IsSparse T.key T.is_zero a.items }
    requires right { IsSparse T.key T.is_zero b.now }
    ensures { GivesBy result (λ v. v.items) (SumsTerms T.key T.is_zero T.sum_gives a.items b.now) }
{
    if goes_on(&a, b) {
        let mut sum = a;
        push_copies(alloc, &mut sum, b)?;
        return Ok(sum);
    }
    sum_terms(alloc, &a, b)
}

/// A list of terms, each changed, formed by rising keys.
pub(crate) fn change_terms<T: Term>(
    alloc: Global,
    terms: &[T],
    change: Change,
) -> Result<Vec<T>, CoefStop>
    requires terms { IsSparse T.key T.is_zero terms.now }
    requires allowed { IsAllowed change }
    ensures { GivesBy result (λ v. v.items) (ChangesTerms T.key T.is_zero (T.change_gives change) terms.now) }
{
    let mut changed = Vec::new(alloc);
    'terms: for term in terms {
        push_nonzero(&mut changed, term.changed(alloc, change)?)?;
    }
    Ok(changed)
}
