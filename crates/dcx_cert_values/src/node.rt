//! The fault that tells why a node isn't formed.
ghost use Rattle.std.specs.Prelude.{◌≡◌};
ghost use Rattle.dcx_cert_values.specs.Forming.{fault_of};

use dcx_answer::{CertFault, Stop};
use dcx_atom::ValueStop;
use dcx_tree::NodeId;

/// The fault that tells why a node isn't formed.
pub(crate) fn fault_of(node: NodeId, stop: ValueStop) -> CertFault
    ensures { result ≡ fault_of node.0 stop }
{
    match stop {
        ValueStop::Passes { entry: _, passes } => CertFault::Wide(passes),
        ValueStop::ZeroDivisor { entry } => CertFault::Fit(Stop::ZeroDivisor { node, entry }),
        ValueStop::Memory => CertFault::Memory,
    }
}
