//! Forms that are multiplied or divided, and added so.
ghost use Rattle.dcx_linear.specs.Changes.{IsAllowed};
ghost use Rattle.dcx_linear.specs.Stops.{Gives, GivesBy};

use crate::accumulator::Accumulator;
use crate::change::Change;
use crate::coef::Coef;
use crate::form::Form;
use crate::stop::CoefStop;
use std::alloc::Global;

impl<C: Coef> Form<C> {
    ghost use Rattle.dcx_linear.specs.Forms.{change_gives_linear};

    /// The form multiplied or divided: the constant, and then the coefficients, unknowns rising.
    ///
    /// `Passes` where an operation passes 128 bits: the first one.
    pub fn changed(&self, alloc: Global, change: Change) -> Result<Form<C>, CoefStop>
        requires { IsAllowed change }
        ensures { Gives result (change_gives_linear C.number_of C.change_gives change self.now) }
    {
        match change {
            Change::Scale(by) => self.scale(alloc, &by),
            Change::Divide(by) => self.divide(alloc, &by),
        }
    }
}

impl<C: Coef> Accumulator<C> {
    ghost use Rattle.dcx_linear.specs.Parts.{adds_part};

    /// Adds a form that is multiplied or divided first, whole.
    ///
    /// `Passes` where an operation passes 128 bits: the first one.
    pub fn add_changed(
        &mut self,
        alloc: Global,
        change: Change,
        form: &Form<C>,
    ) -> Result<(), CoefStop>
        requires { IsAllowed change }
        ensures { GivesBy result (λ _. self.new) (adds_part C.number_of C.sum_gives C.change_gives self.old change form.now) }
    {
        let changed = form.changed(alloc, change)?;
        self.add(alloc, changed)
    }
}
