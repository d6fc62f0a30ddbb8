//! How each setting of a run ends.
ghost use Rattle.std.specs.Prelude.{◌≡◌, is_some};
ghost use Rattle.dcx_answer.specs.NodeStops.{names_node};

use crate::answer::Answer;
use crate::stop::Stop;
use crate::whole_answer::{BranchStop, WholeAnswer};
use dcx_math::List;
use dcx_shape::Place;

/// A setting is answered, or it is stopped. Where a variable is to be whole, branch and bound answers or stops it, and else one solve.
#[derive(Drop)]
pub enum OutcomeEnd {
    /// The setting has this answer.
    Answer(Answer),
    /// A whole optimum, or that there is no whole point.
    Whole(WholeAnswer),
    /// The run of nodes has no answer, for this reason.
    Branch(BranchStop),
    /// The setting has no answer, for this reason.
    Stop(Stop),
}

/// How a setting ends.
#[derive(Drop)]
pub struct Outcome {
    /// Its answer, or why it has none.
    pub end: OutcomeEnd,
    /// The place of the node that the setting's stop names, where it names one.
    pub place: Option<Place>,
    ghost placed: { is_some place ≡ names_node end },
}

/// The outcome of each setting, in order.
pub type Outcomes = List<Outcome>;
