//! How each setting of a run ends at which a parameter's range is told.
ghost use Rattle.std.specs.Prelude.{◌≡◌, is_some};
ghost use Rattle.dcx_answer.specs.NodeStops.{range_names_node};

use crate::range_stop::RangeStop;
use crate::ranged::Ranged;
use crate::stop::Stop;
use dcx_math::List;
use dcx_shape::Place;

/// A parameter's range is told at a setting, or it is stopped.
#[derive(Drop)]
pub enum RangeEnd {
    /// This is told of the parameter.
    Ranged(Ranged),
    /// The range is not told, for this reason.
    Range(RangeStop),
    /// The setting has no program, for this reason.
    Stop(Stop),
}

/// How a setting ends.
#[derive(Drop)]
pub struct RangeOutcome {
    /// What is told, or why nothing is.
    pub end: RangeEnd,
    /// The place of the node that the setting's stop names, where it names one.
    pub place: Option<Place>,
    ghost placed: { is_some place ≡ range_names_node end },
}

/// The outcome of each setting, in order.
pub type RangeOutcomes = List<RangeOutcome>;
