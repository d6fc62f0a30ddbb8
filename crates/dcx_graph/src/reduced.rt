//! A reduced program, and where its rows come from.
ghost use Rattle.std.specs.Prelude.{◌≡◌, ◌<◌, length, Some, slice_get};
ghost use Rattle.dcx_graph.specs.Reduced.{HasOrigins};

use crate::origin::Origin;
use dcx_linear::{Coef, Rows};
use std::marker::Model;

/// The reduced program of a problem: rows, each with where it comes from. Contracts see the three as one value.
#[derive(Drop)]
pub struct Reduced<C: Coef> {
    rows: Rows<C>,
    origins: Vec<Origin>,
    from_map: bool,
}

impl<C: Coef> Model for Reduced<C> {
    ghost use Rattle.dcx_graph.specs.Reduced.{Reduction, HasOrigins};

    ghost Value = { Reduction C };

    ghost view = { λ x. record { program = record { rows = x.rows.rows; objective = x.rows.objective; kinds = x.rows.kinds; origins = x.origins.items }; from_map = x.from_map } };

    ghost invariant = { λ x. HasOrigins x.rows.rows x.origins.items };
}

impl<C: Coef> Reduced<C> {
    /// The program of these rows and origins. Takes no memory.
    pub(crate) fn new(rows: Rows<C>, origins: Vec<Origin>, from_map: bool) -> Reduced<C>
        requires { HasOrigins rows.rows origins.items }
        ensures { result ≡ record { program = record { rows = rows.rows; objective = rows.objective; kinds = rows.kinds; origins = origins.items }; from_map = from_map } }
    {
        Reduced {
            rows,
            origins,
            from_map,
        }
    }

    /// The rows. Takes no memory.
    pub fn rows(&self) -> &Rows<C>
        ensures rows { result.now.rows ≡ self.now.program.rows }
        ensures objective { result.now.objective ≡ self.now.program.objective }
        ensures kinds { result.now.kinds ≡ self.now.program.kinds }
    {
        &self.rows
    }

    /// Where a row comes from. Takes no memory.
    pub fn origin(&self, row: u32) -> Origin
        requires { row < length self.now.program.rows }
        ensures { slice_get self.now.program.origins row ≡ Some result }
    {
        self.origins[row as usize]
    }

    /// Where the rows come from, in order.
    pub(crate) fn origins(&self) -> &[Origin]
        ensures items { result.now ≡ self.now.program.origins }
        ensures kept { HasOrigins self.now.program.rows self.now.program.origins }
    {
        self.origins.as_slice()
    }

    /// Whether the values of parameters were put into affine coefficients. Takes no memory.
    pub fn from_map(&self) -> bool
        ensures { result ≡ self.now.from_map }
    {
        self.from_map
    }
}
