//! How each setting of a run ends at which it is asked which constraints no point keeps together.
ghost use Rattle.std.specs.Prelude.{◌≡◌, is_some};
ghost use Rattle.dcx_answer.specs.NodeStops.{filter_names_node};

use crate::filter_stop::FilterStop;
use crate::filtered::Filtered;
use crate::stop::Stop;
use dcx_math::List;
use dcx_shape::Place;

/// A setting's constraints are filtered, or it is stopped.
#[derive(Drop)]
pub enum FilterEnd {
    /// A feasible point, or constraints that no point keeps together.
    Filtered(Filtered),
    /// A step of the filter has no answer, for this reason.
    Filter(FilterStop),
    /// The setting has no program, for this reason.
    Stop(Stop),
}

/// How a setting ends.
#[derive(Drop)]
pub struct FilterOutcome {
    /// What is found, or why nothing is.
    pub end: FilterEnd,
    /// The place of the node that the setting's stop names, where it names one.
    pub place: Option<Place>,
    ghost placed: { is_some place ≡ filter_names_node end },
}

/// The outcome of each setting, in order.
pub type FilterOutcomes = List<FilterOutcome>;
