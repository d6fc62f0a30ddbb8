//! Why coefficients aren't collected.

ghost use Rattle.std.specs.Prelude.{◌≡◌};
ghost use Rattle.dcx_cert_collect.specs.Calls.{stop_of};

use dcx_atom::SlopeStop;
use dcx_frac::{Frac, Passes};
use dcx_tree::NodeId;

/// Why coefficients aren't collected.
#[derive(Clone, Copy)]
pub enum CollectStop {
    /// The weights of a node break a condition.
    Slope {
        /// The node.
        node: NodeId,
        /// The entry whose weights break it.
        entry: u32,
        /// The left side of the condition.
        stated: Frac,
        /// Its right side.
        found: Frac,
    },
    /// An operation passes 128 bits.
    Passes(Passes),
    /// Memory ran out.
    Memory,
}

/// The stop that tells what stops the slopes of a node.
pub(crate) fn stop_of(node: NodeId, stop: SlopeStop) -> CollectStop
    ensures { result ≡ stop_of node.0 stop }
{
    match stop {
        SlopeStop::Refused {
            entry,
            stated,
            found,
        } => CollectStop::Slope {
            node,
            entry,
            stated,
            found,
        },
        SlopeStop::Passes(passes) => CollectStop::Passes(passes),
        SlopeStop::Memory => CollectStop::Memory,
    }
}
