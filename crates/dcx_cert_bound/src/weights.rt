//! The weights of a certificate by node.
ghost use Rattle.std.specs.Prelude.{◌≡◌, ◌<◌, ℕ, All, IfOk, length};
ghost use Rattle.dcx_cert_bound.specs.Weights.{numbers_in, indexed_at, weights_at};

use dcx_cert_collect::CallWeights;
use dcx_cert_sections::NodeWeights;
use dcx_frac::Frac;
use dcx_tree::NodeId;
use std::alloc::{AllocError, Global};

/// Weights, and for each node where its own stand among them.
#[derive(Clone, Copy)]
pub(crate) struct Indexed<'a> {
    /// The weights.
    pub weights: &'a [NodeWeights],
    /// The place of each node's weights; past the last of them where it has none.
    pub index: &'a [usize],
}

/// The numbers of the weights at a place, and none past the last of them.
fn numbers_at(weights: &[NodeWeights], place: usize) -> &[Frac]
    ensures { result.now ≡ numbers_in weights.now (Some place) }
{
    match weights.get(place) {
        Some(own) => own.numbers.as_slice(),
        None => &[],
    }
}

impl CallWeights for Indexed<'_> {
    ghost weights = { λ s. indexed_at s.index.now s.weights.now };

    fn of_node(&self, node: NodeId) -> &[Frac] {
        match self.index.get(node.0 as usize) {
            Some(place) => numbers_at(self.weights, *place),
            None => &[],
        }
    }
}

/// Where the weights of each of so many nodes stand. Of two for one node the first ones count.
pub(crate) fn index_of(
    alloc: Global,
    nodes: u32,
    weights: &[NodeWeights],
) -> Result<Vec<usize>, AllocError>
    requires { All (λ w. w.node.0 < nodes) weights.now }
    ensures { IfOk result (λ v. (i : ℕ) → i < nodes → indexed_at v.items weights.now i ≡ weights_at weights.now i) }
{
    let count = weights.len();
    let mut index = vec![in alloc; count; nodes as usize]?;
    for k in 0..count {
        let place = count - 1 - k;
        index[weights[place].node.0 as usize] = place;
    }
    Ok(index)
}
