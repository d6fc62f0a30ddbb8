//! Runs of places at equal steps: what a pick takes of one side.
ghost use Rattle.std.specs.Prelude.{◌<◌, ℕ, pos, ◌+ℤ◌, ◌*ℤ◌};
ghost use Rattle.std.specs.Int.{w32, FitsUnsigned};

use crate::fault::ShapeFault;
use crate::places::Places;
use std::alloc::Global;

/// So many places from the first on, each a step from the one before.
#[derive(Clone, Copy)]
pub(crate) struct Run {
    pub(crate) first: u32,
    pub(crate) step: i64,
    pub(crate) count: u32,
    ghost fits: { (k : ℕ) → k < count → FitsUnsigned w32 (pos first +ℤ pos k *ℤ step) },
}

impl Run {
    ghost use Rattle.std.specs.Prelude.{◌≡◌, ◌<◌, [], ◌∷◌, IfOk, IsOkUnless};
    ghost use Rattle.dcx_shape.specs.Run.{run_place, places_of};

    /// The run of one place.
    pub(crate) fn one(place: u32) -> Run
        ensures { places_of result ≡ place ∷ [] }
    {
        Run {
            first: place,
            step: 1,
            count: 1,
        }
    }

    /// Place `k` of the run.
    pub(crate) fn place(&self, k: u32) -> u32
        requires { k < self.now.count }
        ensures { result ≡ run_place self.now k }
    {
        (self.first as i64 + k as i64 * self.step) as u32
    }

    /// The places of the run, in order.
    pub(crate) fn places(&self, alloc: Global) -> Result<Places, ShapeFault>
        ensures ok { IfOk result (λ places. places ≡ places_of self.now) }
        ensures fault { IsOkUnless result ShapeFault.Memory }
    {
        let mut places = Vec::with_capacity(alloc, self.count as usize).map_err(
            |_| ShapeFault::Memory,
        )?;
        for k in 0..self.count {
            places.push(self.place(k)).map_err(|_| ShapeFault::Memory)?;
        }
        Ok(Places::from_vec(places))
    }
}
