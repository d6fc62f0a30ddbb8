//! A coefficient for each unknown: terms are added to them, and taken out of them.
ghost use Rattle.std.specs.Prelude.{◌≡◌, ◌≤◌, ◌<◌, ◌++◌, [], length, true, false, IfOk, OnOk, vec_len};
ghost use Rattle.std.specs.Option.{option_to_list};
ghost use Rattle.dcx_linear.specs.Stops.{GivesBy};
ghost use Rattle.dcx_linear.specs.Terms.{SumsTerms};
ghost use Rattle.dcx_linear.specs.FormTerms.{unknown_of, is_told_zero, has_zero_coefficient, HoldsUnknowns, sum_gives_unknown};
ghost use Rattle.dcx_linear.specs.Slots.{kept_term, listed_from, adds_to_slot, adds_term};

use crate::coef::Coef;
use crate::form::FormTerm;
use crate::param_term::is_zero;
use crate::stop::CoefStop;
use std::alloc::{AllocError, Global};
use std::mem;

/// Whether the coefficient is the number 0.
fn vanishes<C: Coef>(coefficient: &C) -> bool
    ensures { result ≡ is_told_zero (C.number_of coefficient.now) }
{
    match coefficient.as_number() {
        None => false,
        Some(number) => is_zero(&number),
    }
}

/// Puts zeros at the end, until there are so many slots.
fn reach<C: Coef>(alloc: Global, slots: &mut Vec<C>, count: usize) -> Result<(), AllocError>
    requires few { count ≤ 4294967296 }
    requires room { length slots.old.items ≤ 4294967296 }
    ensures room { length slots.new.items ≤ 4294967296 }
    ensures enough { OnOk result (count ≤ length slots.new.items) }
    ensures same { listed_from C.number_of 0 slots.new.items ≡ listed_from C.number_of 0 slots.old.items }
{
    'slots: while slots.len() < count {
        slots.push(C::zero(alloc))?;
    }
    Ok(())
}

/// Adds to a coefficient; where it is 0, nothing is formed.
fn add_to<C: Coef>(alloc: Global, slot: &mut C, coefficient: C) -> Result<(), CoefStop>
    ensures { GivesBy result (λ _. slot.new) (adds_to_slot C.number_of C.sum_gives slot.old coefficient) }
{
    if vanishes(slot) {
        *slot = coefficient;
    } else {
        let before = mem::replace(slot, C::zero(alloc));
        *slot = before.plus(alloc, &coefficient)?;
    }
    Ok(())
}

/// Adds a term whose coefficient isn't 0.
fn add_term<C: Coef>(alloc: Global, slots: &mut Vec<C>, term: FormTerm<C>) -> Result<(), CoefStop>
    requires room { length slots.old.items ≤ 4294967296 }
    requires nonzero { has_zero_coefficient C.number_of term ≡ false }
    ensures room { length slots.new.items ≤ 4294967296 }
    ensures sum { GivesBy result (λ _. listed_from C.number_of 0 slots.new.items) (adds_term C.number_of C.sum_gives (listed_from C.number_of 0 slots.old.items) term) }
{
    let FormTerm {
        unknown,
        coefficient,
    } = term;
    reach(alloc, slots, unknown as usize + 1)?;
    add_to(alloc, &mut slots[unknown as usize], coefficient)
}

/// Adds the terms, unknowns rising.
pub(crate) fn add_terms<C: Coef>(
    alloc: Global,
    slots: &mut Vec<C>,
    terms: Vec<FormTerm<C>>,
) -> Result<(), CoefStop>
    requires room { length slots.old.items ≤ 4294967296 }
    requires sparse { HoldsUnknowns C.number_of terms.items }
    ensures room { length slots.new.items ≤ 4294967296 }
    ensures sum { GivesBy result (λ _. listed_from C.number_of 0 slots.new.items)
        (SumsTerms unknown_of (has_zero_coefficient C.number_of) (sum_gives_unknown C.sum_gives) (listed_from C.number_of 0 slots.old.items) terms.items) }
{
    'terms: for term in terms {
        add_term(alloc, slots, term)?;
    }
    Ok(())
}

/// Takes the coefficient out and puts its term at the end, unless it is 0; 0 is left.
fn take_slot<C: Coef>(
    alloc: Global,
    terms: &mut Vec<FormTerm<C>>,
    unknown: u32,
    slot: &mut C,
) -> Result<(), AllocError>
    ensures taken { OnOk result (terms.new.items ≡ terms.old.items ++ option_to_list (kept_term C.number_of unknown slot.old)) }
    ensures cleared { is_told_zero (C.number_of slot.new) ≡ true }
{
    if !vanishes(slot) {
        let coefficient = mem::replace(slot, C::zero(alloc));
        terms.push(FormTerm {
            unknown,
            coefficient,
        })?;
    }
    Ok(())
}

/// Takes the coefficients out that are not 0, unknowns rising; zeros are left.
pub(crate) fn take_terms<C: Coef>(
    alloc: Global,
    slots: &mut [C],
) -> Result<Vec<FormTerm<C>>, AllocError>
    requires { length slots.old ≤ 4294967296 }
    ensures taken { IfOk result (λ v. v.items ≡ listed_from C.number_of 0 slots.old) }
    ensures cleared { OnOk result (listed_from C.number_of 0 slots.new ≡ []) }
{
    let mut terms = Vec::new(alloc);
    'slots: for (index, slot) in slots.iter_mut().enumerate() {
        take_slot(alloc, &mut terms, index as u32, slot)?;
    }
    Ok(terms)
}
