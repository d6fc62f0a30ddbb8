//! A form that other forms are added to in place.
ghost use Rattle.std.specs.Prelude.{◌≡◌, IfOk, OnOk};
ghost use Rattle.dcx_linear.specs.Stops.{GivesBy};

use crate::coef::Coef;
use crate::form::{Form, FormTerms};
use crate::slots::{add_terms, take_terms};
use crate::stop::CoefStop;
use std::alloc::{AllocError, Global};
use std::marker::Model;
use std::mem;

/// A linear form with room for a coefficient of each unknown, so that a form is added in about the time of listing it.
#[derive(Drop)]
pub struct Accumulator<C: Coef> {
    constant: C,
    slots: Vec<C>,
}

impl<C: Coef> Model for Accumulator<C> {
    ghost use Rattle.std.specs.Prelude.{◌≤◌, length};
    ghost use Rattle.dcx_linear.specs.declared.form.Form.{Form};
    ghost use Rattle.dcx_linear.specs.Slots.{accumulated};

    ghost Value = { Form C };

    ghost view = { λ x. accumulated C.number_of x.constant x.slots.items };

    ghost invariant = { λ x. length x.slots.items ≤ 4294967296 };
}

impl<C: Coef> Accumulator<C> {
    ghost use Rattle.dcx_atom.specs.Formed.{zero_frac};
    ghost use Rattle.dcx_linear.specs.Forms.{sum_gives_linear, is_constant};

    /// The form 0. Takes no memory.
    pub fn new(alloc: Global) -> Accumulator<C>
        ensures { result ≡ is_constant (C.of_number zero_frac) }
    {
        Accumulator {
            constant: C::zero(alloc),
            slots: Vec::new(alloc),
        }
    }

    /// Adds a form: its constant, and then its coefficients, unknowns rising. Takes memory for the largest unknown alone.
    ///
    /// `Passes` where an operation passes 128 bits: the first one.
    pub fn add(&mut self, alloc: Global, form: Form<C>) -> Result<(), CoefStop>
        ensures { GivesBy result (λ _. self.new) (sum_gives_linear C.number_of C.sum_gives self.old form) }
    {
        let Form { constant, terms } = form;
        let terms = terms.into_vec();
        let before = mem::replace(&mut self.constant, C::zero(alloc));
        self.constant = before.plus(alloc, &constant)?;
        add_terms(alloc, &mut self.slots, terms)
    }

    /// The form, which is 0 again afterwards. Takes time for each unknown up to the largest that was added since `new`.
    pub fn take(&mut self, alloc: Global) -> Result<Form<C>, AllocError>
        ensures taken { IfOk result (λ f. f ≡ self.old) }
        ensures zero { OnOk result (self.new ≡ is_constant (C.of_number zero_frac)) }
    {
        let terms = take_terms(alloc, &mut self.slots)?;
        let constant = mem::replace(&mut self.constant, C::zero(alloc));
        Ok(Form {
            constant,
            terms: FormTerms::from_vec(terms),
        })
    }
}
