//! The run of nodes.
ghost use Rattle.std.specs.Prelude.{◌≡◌, ◌≤◌, ◌<◌, ◌+◌, ◌^◌, [], ◌∷◌, ◌++◌, length, option_map, sum_by, IfOk, IfErr, OnOk};
ghost use Rattle.dcx_frac.specs.Frac.{value};
ghost use Rattle.dcx_convex.specs.Nodes.{Setting as ParameterNumbers};
ghost use Rattle.dcx_tree.specs.Meaning.{setting_of};
ghost use Rattle.dcx_unknowns.specs.Layout.{constraint_rows};
ghost use Rattle.dcx_unknowns.specs.Unknowns.{variable_unknowns};
ghost use Rattle.dcx_graph.specs.Answers.{IsReducedAt};
ghost use Rattle.dcx_branch.specs.Places.{places as places_by};
ghost use Rattle.dcx_branch.specs.Between.{HasRoom};
ghost use Rattle.dcx_branch.specs.Sides.{IsNextSide, box_bounds};
ghost use Rattle.dcx_branch.specs.Taken.{TakenAs};
ghost use Rattle.dcx_branch.specs.Answers.{IsEndOf};
ghost use Rattle.dcx_right.specs.WholeAnswers.{IsRightFor};
ghost use Rattle.dcx_branch.specs.Searches.{IsAt, IsDone, IsAtOrDone, AddsSide, Enters, HasRoomIn, answer_of, found_value, StopsNext, node_stop as stop_by};

use crate::next::next_side;
use crate::node::{NodeStop, Taken, take};
use crate::place::{Place, places_of};
use crate::side::Side;
use dcx_answer::{BranchNode, BranchStop, BranchTree, Stop, WholeAnswer};
use dcx_frac::Frac;
use dcx_graph::Reduced;
use dcx_point::{Point, Setting};
use dcx_tree::Problem;
use std::alloc::{AllocError, Global};

/// The best point so far.
#[derive(Drop)]
struct Best {
    /// The minimized objective there.
    value: Frac,
    /// The point.
    point: Point,
}

/// How far the run has come.
#[derive(Drop)]
struct Search {
    /// The sides that lead to the node that comes next; where an upper side isn't taken yet it is open.
    sides: Vec<Side>,
    /// The nodes of the tree so far.
    nodes: Vec<BranchNode>,
    /// The best point so far.
    best: Option<Best>,
    /// How many nodes are taken.
    taken: u32,
}

/// The stop of a node.
fn node_stop(node: u32, stop: Stop) -> BranchStop
    ensures { result ≡ stop_by node stop }
{
    match stop {
        Stop::Memory => BranchStop::Memory,
        stop => BranchStop::Node { node, stop },
    }
}

/// The answer, where no box is open.
fn answer(search: Search) -> WholeAnswer
    ensures { result ≡ answer_of search.best search.nodes.items search.taken }
{
    let Search {
        nodes,
        best,
        taken,
        ..
    } = search;
    let tree = BranchTree::from_vec(nodes);
    match best {
        Some(best) => WholeAnswer::Optimal {
            value: best.value,
            point: best.point,
            tree,
            nodes: taken,
        },
        None => WholeAnswer::Infeasible { tree, nodes: taken },
    }
}

impl Search {
    /// No node is taken yet.
    fn begin(alloc: Global) -> Search
        ensures sides { result.sides.items ≡ [] }
        ensures nodes { result.nodes.items ≡ [] }
        ensures best { result.best ≡ None }
        ensures count { result.taken ≡ 0 }
    {
        Search {
            sides: Vec::new(alloc),
            nodes: Vec::new(alloc),
            best: None,
            taken: 0,
        }
    }

    /// The value of the best point so far.
    fn best_value(&self) -> Option<Frac>
        ensures { option_map value result ≡ found_value self.now.best }
    {
        match &self.best {
            None => None,
            Some(best) => Some(best.value),
        }
    }

    /// Lists a leaf, and goes on to the next open side; false where there is none.
    fn close(&mut self, leaf: BranchNode) -> Result<bool, AllocError>
        requires { self.old.taken + 1 < 2 ^ 32 }
        ensures nodes { OnOk result (self.new.nodes.items ≡ self.old.nodes.items ++ leaf ∷ []) }
        ensures best { self.new.best ≡ self.old.best }
        ensures count { self.new.taken ≡ self.old.taken + 1 }
        ensures sides { IfOk result (λ more. IsNextSide self.old.sides.items more self.new.sides.items) }
    {
        self.taken += 1;
        self.nodes.push(leaf)?;
        Ok(next_side(&mut self.sides))
    }

    /// Lists a node with two sides, of which the lower one comes next.
    fn divide(&mut self, place: Place, limit: i128) -> Result<(), AllocError>
        requires count { self.old.taken + 1 < 2 ^ 32 }
        requires room { HasRoom limit }
        ensures nodes { OnOk result (self.new.nodes.items ≡ self.old.nodes.items ++ BranchNode.Split place.variable place.entry limit ∷ []) }
        ensures best { self.new.best ≡ self.old.best }
        ensures count { self.new.taken ≡ self.old.taken + 1 }
        ensures sides { OnOk result (AddsSide place limit self.old.sides.items self.new.sides.items) }
    {
        self.taken += 1;
        self.nodes.push(BranchNode::Split {
            variable: place.variable,
            entry: place.entry,
            limit,
        })?;
        self.sides.push(Side {
            place,
            limit,
            above: false,
        })?;
        Ok(())
    }

    /// Goes on behind a node; false where no box is open.
    fn enter(&mut self, taken: Taken) -> Result<bool, AllocError>
        requires count { self.old.taken + 1 < 2 ^ 32 }
        requires room { HasRoomIn taken }
        ensures { IfOk result (λ more. Enters self.old taken more self.new) }
    {
        match taken {
            Taken::Leaf(leaf) => self.close(leaf),
            Taken::Best { leaf, value, point } => {
                drop(self.best.replace(Best { value, point }));
                self.close(leaf)
            }
            Taken::Split { place, limit } => {
                self.divide(place, limit)?;
                Ok(true)
            }
        }
    }

    /// What the node that comes next turns out to be.
    fn next_taken(
        &self,
        alloc: Global,
        problem: &Problem,
        reduced: &Reduced<Frac>,
        places: &[Place],
        limit: u64,
    ) -> Result<Taken, BranchStop>
        requires count { self.now.taken + 1 < 2 ^ 32 }
        requires places { places.now ≡ places_by problem.now.variables }
        requires unknowns { variable_unknowns problem.now.variables ≤ length reduced.now.program.kinds }
        requires rows { sum_by constraint_rows problem.now.constraints ≤ length reduced.now.program.rows }
        ensures taken { IfOk result (TakenAs problem.now reduced.now.program limit (box_bounds places.now self.now.sides.items) (found_value self.now.best)) }
        ensures stops { (s : ParameterNumbers) → IsReducedAt problem.now s reduced.now.program → IsAt problem.now reduced.now.program limit self.now
            → IfErr result (StopsNext problem.now reduced.now.program limit self.now.taken) }
    {
        let best = self.best_value();
        match take(alloc, problem, reduced, places, &self.sides, &best, limit) {
            Ok(taken) => Ok(taken),
            Err(NodeStop::Unbounded) => Err(BranchStop::RelaxationUnbounded),
            Err(NodeStop::Stop(stop)) => Err(node_stop(self.taken + 1, stop)),
        }
    }

    /// Takes the next node; false where no box is open after it.
    fn step(
        &mut self,
        alloc: Global,
        problem: &Problem,
        reduced: &Reduced<Frac>,
        places: &[Place],
        limit: u64,
    ) -> Result<bool, BranchStop>
        requires count { self.old.taken + 1 < 2 ^ 32 }
        requires places { places.now ≡ places_by problem.now.variables }
        requires unknowns { variable_unknowns problem.now.variables ≤ length reduced.now.program.kinds }
        requires rows { sum_by constraint_rows problem.now.constraints ≤ length reduced.now.program.rows }
        ensures count { OnOk result (self.new.taken ≡ self.old.taken + 1) }
        ensures goes { IsAt problem.now reduced.now.program limit self.old → IfOk result (λ more. IsAtOrDone problem.now reduced.now.program limit more self.new) }
        ensures stops { (s : ParameterNumbers) → IsReducedAt problem.now s reduced.now.program → IsAt problem.now reduced.now.program limit self.old
            → IfErr result (StopsNext problem.now reduced.now.program limit self.old.taken) }
    {
        let taken = self.next_taken(alloc, problem, reduced, places, limit)?;
        Ok(self.enter(taken)?)
    }

    /// Takes all nodes.
    fn run(
        &mut self,
        alloc: Global,
        problem: &Problem,
        reduced: &Reduced<Frac>,
        places: &[Place],
        limit: u64,
        nodes: u32,
    ) -> Result<(), BranchStop>
        requires begun { self.old.taken ≡ 0 }
        requires places { places.now ≡ places_by problem.now.variables }
        requires unknowns { variable_unknowns problem.now.variables ≤ length reduced.now.program.kinds }
        requires rows { sum_by constraint_rows problem.now.constraints ≤ length reduced.now.program.rows }
        ensures few { OnOk result (self.new.taken ≤ nodes) }
        ensures done { IsAt problem.now reduced.now.program limit self.old → OnOk result (IsDone problem.now reduced.now.program limit self.new) }
        ensures stops { (s : ParameterNumbers) → IsReducedAt problem.now s reduced.now.program → IsAt problem.now reduced.now.program limit self.old
            → IfErr result (λ e. IsEndOf problem.now reduced.now.program limit nodes (Err e)) }
    {
        let mut open = true;
        'nodes: while open {
            if self.taken >= nodes {
                return Err(BranchStop::NodeLimit { limit: nodes });
            }
            open = self.step(alloc, problem, reduced, places, limit)?;
        }
        Ok(())
    }
}

/// A whole optimum of a problem with marked variables at a setting, or that it has no whole point, by branch and bound over a
/// reduced program of the problem there; with a tree that shows it, and the number of nodes of the run. Each node's rows are
/// solved with at most `limit` pivots.
///
/// `RelaxationUnbounded` exactly where the run of the root ends unbounded. `NodeLimit` exactly where the run has more than `nodes`
/// nodes, which is tested before each node. `Node` exactly where the rows of a node have no scaled program or a run without an
/// end, or a multiplier of a leaf passes 128 bits: at the first node in the order of the run. `Memory` where there is none.
pub fn branch(
    alloc: Global,
    problem: &Problem,
    reduced: &Reduced<Frac>,
    setting: &Setting,
    limit: u64,
    nodes: u32,
) -> Result<WholeAnswer, BranchStop>
    requires program { IsReducedAt problem.now (setting_of problem.now setting.now) reduced.now.program }
    requires unknowns { variable_unknowns problem.now.variables ≤ length reduced.now.program.kinds }
    ensures end { IsEndOf problem.now reduced.now.program limit nodes result }
    ensures right { IfOk result (IsRightFor problem.now (setting_of problem.now setting.now)) }
{
    let places = places_of(alloc, problem.variables.as_slice())?;
    let mut search = Search::begin(alloc);
    match search.run(alloc, problem, reduced, &places, limit, nodes) {
        Ok(()) => {
            drop(places);
            Ok(answer(search))
        }
        Err(stop) => {
            drop((places, search));
            Err(stop)
        }
    }
}
