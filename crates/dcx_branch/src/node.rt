//! One node: its rows are solved, and what their answer makes of it.
ghost use Rattle.std.specs.Prelude.{◌≡◌, ◌≤◌, ◌<◌, ℕ, length, sum_by, Option, option_map, IfOk, IfErr, IfSome, MatchOption, MatchBool};
ghost use Rattle.std.specs.List.{All};
ghost use Rattle.dcx_math.specs.Rational.{ℚ};
ghost use Rattle.dcx_frac.specs.Frac.{value};
ghost use Rattle.dcx_lp_answer.specs.declared.answer.LpStatus.TheVariants as status;
ghost use Rattle.dcx_lp_solve.specs.Solved.{Stops};
ghost use Rattle.dcx_unknowns.specs.Layout.{constraint_rows};
ghost use Rattle.dcx_unknowns.specs.Unknowns.{variable_unknowns};
ghost use Rattle.dcx_postsolve.specs.Points.{numbered};
ghost use Rattle.dcx_right.specs.Points.{IsWhole};
ghost use Rattle.dcx_branch.specs.Between.{HasRoom, IsBetween};
ghost use Rattle.dcx_branch.specs.Places.{places as places_by};
ghost use Rattle.dcx_branch.specs.Rows.{node_rows as rows_by};
ghost use Rattle.dcx_branch.specs.Sides.{box_bounds};
ghost use Rattle.dcx_branch.specs.Leaves.{StopsLeaf, IsLeafOf};
ghost use Rattle.dcx_branch.specs.Run.{AreWhole, IsFirstSplit, IsPruned, IsBetter, unknowns_in};
ghost use Rattle.dcx_branch.specs.Taken.{IsNodeOf, HasNotes, TellsUnknowns, made_leaf, IsTaken, StopsJudging, TakenAs, StopsTaking};

use crate::bound::BoundAt;
use crate::leaf::leaf_of;
use crate::limits::bounds_of;
use crate::place::Place;
use crate::rows::node_rows;
use crate::side::Side;
use dcx_answer::{BranchNode, Stop};
use dcx_frac::Frac;
use dcx_graph::Reduced;
use dcx_linear::UnknownKind;
use dcx_lp_answer::LpStatus;
use dcx_lp_solve::{SolveStop, Solved, run_stop, solve_rows};
use dcx_point::Point;
use dcx_postsolve::{point_of_unknowns, unknown_numbers};
use dcx_tree::Problem;
use std::alloc::{AllocError, Global};
use std::cmp::Ordering;

/// A node whose rows are solved.
#[derive(Drop)]
pub(crate) struct Node {
    /// The bounds of its box.
    pub bounds: Vec<BoundAt>,
    /// How its rows are solved.
    pub solved: Solved,
}

/// What a node turns out to be.
#[derive(Drop)]
pub(crate) enum Taken {
    /// A leaf without a better point.
    Leaf(BranchNode),
    /// A leaf with a better point.
    Best {
        /// The leaf.
        leaf: BranchNode,
        /// The minimized objective at the point.
        value: Frac,
        /// The point.
        point: Point,
    },
    /// Two sides of an entry.
    Split {
        /// The entry.
        place: Place,
        /// The lower side is where the entry is at most this.
        limit: i128,
    },
}

/// Why a node isn't taken.
#[derive(Drop)]
pub(crate) enum NodeStop {
    /// The objective falls for ever.
    Unbounded,
    /// The rows aren't solved, or a multiplier of a leaf passes.
    Stop(Stop),
}

impl From<AllocError> for NodeStop {
    ghost use Rattle.std.specs.Prelude.{◌≡◌};
    ghost use Rattle.dcx_answer.specs.declared.stop.Stop.TheVariants.{Memory};
    ghost use Rattle.dcx_branch.specs.declared.node.NodeStop.TheVariants.{Stop};

    ghost from_gives = { λ _ e. e ≡ Stop Memory };

    fn from(_: AllocError) -> Self {
        NodeStop::Stop(Stop::Memory)
    }
}

/// The node of the box of these sides, with its rows solved by at most `limit` pivots.
fn solve_node(
    alloc: Global,
    reduced: &Reduced<Frac>,
    places: &[Place],
    sides: &[Side],
    limit: u64,
) -> Result<Node, SolveStop>
    requires { All (λ q. q.unknown < length reduced.now.program.kinds) places.now }
    ensures node { IfOk result (IsNodeOf reduced.now.program limit (box_bounds places.now sides.now)) }
    ensures stops { IfErr result (Stops limit (rows_by reduced.now.program (box_bounds places.now sides.now))) }
{
    let bounds = bounds_of(alloc, places, sides)?;
    let rows = node_rows(alloc, reduced.rows(), &bounds)?;
    match solve_rows(alloc, &rows, limit) {
        Ok(solved) => {
            drop(rows);
            Ok(Node { bounds, solved })
        }
        Err(stop) => {
            drop((bounds, rows));
            Err(stop)
        }
    }
}

/// The greatest integer below a number that isn't whole.
fn whole_below(number: &Frac) -> Option<i128>
    ensures below { MatchOption result (IsWhole (value number.now)) (IsBetween (value number.now)) }
    ensures room { IfSome result HasRoom }
{
    let num = number.num();
    let den = number.den();
    if den == 1 {
        None
    } else {
        Some(num.div_euclid(den))
    }
}

/// The first entry whose number isn't whole, with the greatest integer below it.
fn first_split(places: &[Place], numbers: &[Frac]) -> Option<(Place, i128)>
    requires { All (λ q. q.unknown < length numbers.now) places.now }
    ensures split { MatchOption result (AreWhole places.now (numbered numbers.now)) (λ r. IsFirstSplit places.now (numbered numbers.now) r.0 r.1) }
    ensures room { IfSome result (λ r. HasRoom r.1) }
{
    'places: for place in places {
        match whole_below(&numbers[place.unknown as usize]) {
            Some(limit) => return Some((*place, limit)),
            None => {}
        }
    }
    None
}

/// Whether a value isn't below the best one.
fn is_pruned(best: &Option<Frac>, number: &Frac) -> bool
    ensures { MatchBool result (IsPruned (option_map value best.now) (value number.now)) (IsBetter (option_map value best.now) (value number.now)) }
{
    match best {
        None => false,
        Some(best) => match number.cmp_exact(best) {
            Ordering::Less => false,
            Ordering::Equal | Ordering::Greater => true,
        },
    }
}

/// A leaf that shows that no point of the box is feasible.
fn empty_leaf(alloc: Global, problem: &Problem, first: u32, node: &Node) -> Result<BranchNode, Stop>
    requires infeasible { node.now.solved.answer.status ≡ status.Infeasible }
    requires notes { HasNotes problem.now node.now.solved.answer first node.now.bounds.items }
    ensures made { IfOk result (IsLeafOf problem.now node.now.solved.answer first node.now.bounds.items) }
    ensures stops { IfErr result (StopsLeaf problem.now node.now.solved.answer first node.now.bounds.items) }
{
    let leaf = leaf_of(alloc, problem, &node.solved.answer, first, &node.bounds)?;
    Ok(BranchNode::Empty {
        duals: leaf.duals,
        bounds: leaf.bounds,
        gap: node.solved.answer.number,
    })
}

/// A leaf that bounds the objective from below.
fn bound_leaf(alloc: Global, problem: &Problem, first: u32, node: &Node) -> Result<BranchNode, Stop>
    requires optimal { node.now.solved.answer.status ≡ status.Optimal }
    requires notes { HasNotes problem.now node.now.solved.answer first node.now.bounds.items }
    ensures made { IfOk result (IsLeafOf problem.now node.now.solved.answer first node.now.bounds.items) }
    ensures stops { IfErr result (StopsLeaf problem.now node.now.solved.answer first node.now.bounds.items) }
{
    let leaf = leaf_of(alloc, problem, &node.solved.answer, first, &node.bounds)?;
    Ok(BranchNode::Bound {
        duals: leaf.duals,
        bounds: leaf.bounds,
    })
}

/// A leaf without a better point.
fn without_point(made: Result<BranchNode, Stop>) -> Result<Taken, NodeStop>
    ensures { result ≡ made_leaf made }
{
    match made {
        Ok(node) => Ok(Taken::Leaf(node)),
        Err(stop) => Err(NodeStop::Stop(stop)),
    }
}

/// A leaf with a point whose entries are whole.
fn best_leaf(
    alloc: Global,
    problem: &Problem,
    first: u32,
    node: &Node,
    numbers: &[Frac],
) -> Result<Taken, NodeStop>
    requires optimal { node.now.solved.answer.status ≡ status.Optimal }
    requires notes { HasNotes problem.now node.now.solved.answer first node.now.bounds.items }
    requires numbers { (u : ℕ) → numbered numbers.now u ≡ unknowns_in node.now.solved.program node.now.solved.answer u }
    requires whole { AreWhole (places_by problem.now.variables) (numbered numbers.now) }
    ensures taken { (best : Option ℚ) → IsBetter best (value node.now.solved.answer.number) → IfOk result (IsTaken problem.now first node.now.bounds.items best node.now.solved) }
    ensures stops { (best : Option ℚ) → IsBetter best (value node.now.solved.answer.number) → IfErr result (StopsJudging problem.now first node.now.bounds.items best node.now.solved) }
{
    let leaf = match bound_leaf(alloc, problem, first, node) {
        Ok(leaf) => leaf,
        Err(stop) => return Err(NodeStop::Stop(stop)),
    };
    match point_of_unknowns(alloc, problem, numbers) {
        Ok(point) => Ok(Taken::Best {
            leaf,
            value: node.solved.answer.number,
            point,
        }),
        Err(_) => {
            drop(leaf);
            Err(NodeStop::Stop(Stop::Memory))
        }
    }
}

/// What a node with a least cost below the best value turns out to be.
fn better(
    alloc: Global,
    problem: &Problem,
    kinds: &[UnknownKind],
    first: u32,
    places: &[Place],
    node: &Node,
) -> Result<Taken, NodeStop>
    requires optimal { node.now.solved.answer.status ≡ status.Optimal }
    requires notes { HasNotes problem.now node.now.solved.answer first node.now.bounds.items }
    requires tells { TellsUnknowns kinds.now node.now.solved.program node.now.solved.answer }
    requires places { places.now ≡ places_by problem.now.variables }
    requires known { All (λ q. q.unknown < length kinds.now) places.now }
    ensures taken { (best : Option ℚ) → IsBetter best (value node.now.solved.answer.number) → IfOk result (IsTaken problem.now first node.now.bounds.items best node.now.solved) }
    ensures stops { (best : Option ℚ) → IsBetter best (value node.now.solved.answer.number) → IfErr result (StopsJudging problem.now first node.now.bounds.items best node.now.solved) }
{
    let columns = node.solved.answer.columns.as_slice();
    let numbers = unknown_numbers(alloc, kinds, columns)?;
    match first_split(places, numbers.as_slice()) {
        Some((place, limit)) => Ok(Taken::Split { place, limit }),
        None => best_leaf(alloc, problem, first, node, numbers.as_slice()),
    }
}

/// What a node turns out to be, by the answer of its rows.
fn judge(
    alloc: Global,
    problem: &Problem,
    kinds: &[UnknownKind],
    first: u32,
    places: &[Place],
    node: &Node,
    best: &Option<Frac>,
) -> Result<Taken, NodeStop>
    requires notes { HasNotes problem.now node.now.solved.answer first node.now.bounds.items }
    requires tells { TellsUnknowns kinds.now node.now.solved.program node.now.solved.answer }
    requires places { places.now ≡ places_by problem.now.variables }
    requires known { All (λ q. q.unknown < length kinds.now) places.now }
    ensures taken { IfOk result (IsTaken problem.now first node.now.bounds.items (option_map value best.now) node.now.solved) }
    ensures stops { IfErr result (StopsJudging problem.now first node.now.bounds.items (option_map value best.now) node.now.solved) }
{
    match node.solved.answer.status {
        LpStatus::Unbounded => Err(NodeStop::Unbounded),
        LpStatus::Infeasible => without_point(empty_leaf(alloc, problem, first, node)),
        LpStatus::Optimal => {
            if is_pruned(best, &node.solved.answer.number) {
                without_point(bound_leaf(alloc, problem, first, node))
            } else {
                better(alloc, problem, kinds, first, places, node)
            }
        }
    }
}

/// What the node of the box of these sides turns out to be.
pub(crate) fn take(
    alloc: Global,
    problem: &Problem,
    reduced: &Reduced<Frac>,
    places: &[Place],
    sides: &[Side],
    best: &Option<Frac>,
    limit: u64,
) -> Result<Taken, NodeStop>
    requires places { places.now ≡ places_by problem.now.variables }
    requires unknowns { variable_unknowns problem.now.variables ≤ length reduced.now.program.kinds }
    requires rows { sum_by constraint_rows problem.now.constraints ≤ length reduced.now.program.rows }
    ensures taken { IfOk result (TakenAs problem.now reduced.now.program limit (box_bounds places.now sides.now) (option_map value best.now)) }
    ensures stops { IfErr result (StopsTaking problem.now reduced.now.program limit (box_bounds places.now sides.now) (option_map value best.now)) }
{
    let rows = reduced.rows();
    match solve_node(alloc, reduced, places, sides, limit) {
        Ok(node) => {
            let first = rows.rows.as_slice().len() as u32;
            let taken = judge(
                alloc,
                problem,
                rows.kinds.as_slice(),
                first,
                places,
                &node,
                best,
            );
            drop(node);
            taken
        }
        Err(stop) => Err(NodeStop::Stop(run_stop(stop))),
    }
}
