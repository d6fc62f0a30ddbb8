//! Matrix products of plain arrays.
ghost use Rattle.std.specs.Prelude.{◌<◌};
ghost use Rattle.dcx_array.specs.Answers.{Gives};
ghost use Rattle.dcx_array.specs.Operators.{product_entry, matrix_multiplied};

use crate::fault::ArrayFault;
use crate::forming::{Entrywise, entry, fill};
use crate::shapes::multiplied_shape;
use dcx_affine::product_pair;
use dcx_atom::{Array, add_product};
use dcx_frac::{Frac, Passes};
use std::alloc::Global;

/// The rows of the left side beside the columns of the right one.
#[derive(Clone, Copy)]
struct Products<'a> {
    left: &'a Array,
    right: &'a Array,
}

impl Entrywise for Products<'_> {
    ghost can_form = { λ x k. k < 20000 };

    ghost formed = { λ x k. product_entry x.left.now x.right.now k };

    fn form(&self, k: u32) -> Result<Frac, Passes> {
        let mut sum = Frac::zero();
        for t in 0..self.left.shape.cols() {
            let pair = product_pair(self.left.shape, self.right.shape, k, t);
            sum = add_product(
                sum,
                entry(self.left, pair.left),
                entry(self.right, pair.right),
            )?;
        }
        Ok(sum)
    }
}

/// The matrix product `a @ b`, each entry a sum of products in order, from 0.
///
/// `Clash` where the inner sides differ or one of both is a number, `TooMany` where there would be more than 20,000
/// entries, and then `Wide` with the first product or sum that passes 128 bits.
pub fn matmul(alloc: Global, a: &Array, b: &Array) -> Result<Array, ArrayFault>
    ensures { Gives result (matrix_multiplied a.now b.now) }
{
    let shape = multiplied_shape(a.shape, b.shape)?;
    let products = Products { left: a, right: b };
    fill(alloc, shape, &products)
}
