//! A table with a place for the value of each node.
ghost use Rattle.std.specs.Prelude.{◌≡◌, ◌⊎◌, ℕ, ◌<◌, ◌≤◌, [], true, false, None, length, All, IfOk, IfErr, OnOk, IsSome, slice_index_or};
ghost use Rattle.std.specs.Option.{option_copied};
ghost use Rattle.dcx_point.specs.Pairs.{Pairs};
ghost use Rattle.dcx_arena.specs.Nodes.{positions, IsNode, args_at};
ghost use Rattle.dcx_call.specs.Values.{IsGiven};
ghost use Rattle.dcx_convex.specs.Certificates.{is_fixed};
ghost use Rattle.dcx_tree.specs.Nodes.{Node};
ghost use Rattle.dcx_tree.specs.Meaning.{convex_problem};
ghost use Rattle.dcx_tree.specs.Values.{array_at, IsMarked};
ghost use Rattle.dcx_answer.specs.declared.cert_fault.CertFault.TheVariants.{Memory};
ghost use Rattle.dcx_cert_sections.specs.Checks.{Checked};
ghost use Rattle.dcx_cert_values.specs.Forming.{GivesParameters, GivesVariables, IsUnformedAt, forming_where, forming, forming_fixed};
ghost use Rattle.dcx_cert_values.specs.Tables.{AreKeptValues, StaysKept, AreKeptBelow, AreKeptWhere, AreKeptFixed, AreOnlyFixed, kept_if};
ghost use Rattle.dcx_cert_values.specs.Marks.{AreWithin, AreClosed};

use crate::marks::{end_of, is_kept, is_marked, keep_marked, wanted};
use crate::node::fault_of;
use dcx_answer::CertFault;
use dcx_atom::Array;
use dcx_point::{Point, Setting};
use dcx_tree::{NodeId, Problem, node_value};
use std::alloc::{AllocError, Global};
use std::marker::Model;

/// A place for the value of each node, where it stands once it is formed.
#[derive(Drop)]
pub struct Values {
    arrays: Vec<Option<Array>>,
}

impl Model for Values {
    ghost use Rattle.std.specs.Prelude.{List, Option};
    ghost use Rattle.dcx_atom.specs.declared.array.Array.{Array};

    ghost Value = { List (Option Array) };

    ghost view = { λ v. v.arrays.items };
}

impl Values {
    /// A table without values, for the nodes of a problem, at whichever setting and point.
    pub fn new(alloc: Global, problem: &Problem) -> Result<Values, AllocError>
        ensures none { IfOk result (λ v. (i : ℕ) → array_at v i ≡ None) }
        ensures values { IfOk result (λ v. (setting point : Pairs) → AreKeptValues problem.now setting point v) }
    {
        let mut arrays = Vec::new(alloc);
        for _i in 0..problem.tree.nodes() {
            arrays.push(None)?;
        }
        Ok(Values { arrays })
    }

    /// The value of a node, where it is kept.
    pub fn get(&self, node: NodeId) -> Option<&Array>
        ensures { option_copied result ≡ array_at self.now node.0 }
    {
        match self.arrays.get(node.0 as usize) {
            Some(Some(array)) => Some(array),
            _ => None,
        }
    }

    /// The places, one for each node: its array, where it is kept.
    pub fn as_slice(&self) -> &[Option<Array>]
        ensures { result.now ≡ self.now }
    {
        self.arrays.as_slice()
    }

    /// Forms the values of the nodes that the roots reach, nodes and entries rising, but for those that are kept.
    ///
    /// `Wide` tells the operation that passes 128 bits, and `Fit` the divisor entry that is 0, at the first node that isn't formed.
    pub fn form(
        &mut self,
        alloc: Global,
        problem: &Problem,
        roots: &[NodeId],
        point: &Point,
        setting: &Setting,
    ) -> Result<(), CertFault>
        requires roots { All (λ r. r < length problem.now.tree) (positions roots.now) }
        requires parameters { GivesParameters problem.now setting.now }
        requires variables { GivesVariables problem.now point.now }
        requires values { AreKeptValues problem.now setting.now point.now self.old }
        ensures checked { Checked (forming problem.now setting.now point.now (positions roots.now)) result }
        ensures kept { OnOk result (AreKeptBelow problem.now (positions roots.now) self.new) }
        ensures values { AreKeptValues problem.now setting.now point.now self.new }
        ensures stays { StaysKept self.old self.new }
    {
        let end = end_of(&self.arrays, roots, problem.tree.nodes());
        if end == 0 {
            return Ok(());
        }
        let (marks, low) = wanted(alloc, &problem.tree, &self.arrays, roots, end)?;
        self.form_marked(alloc, problem, &marks, low, end, point, setting)
    }

    /// Forms the values of the nodes that reach no variable, but for those that are kept. `fixed` marks these nodes.
    pub fn form_fixed(
        &mut self,
        alloc: Global,
        problem: &Problem,
        fixed: &[bool],
        setting: &Setting,
    ) -> Result<(), CertFault>
        requires count { length fixed.now ≡ length problem.now.tree }
        requires fixed { (i : ℕ) → i < length problem.now.tree → slice_index_or fixed.now i false ≡ is_fixed (convex_problem problem.now).nodes i }
        requires parameters { GivesParameters problem.now setting.now }
        requires values { AreKeptValues problem.now setting.now [] self.old }
        ensures checked { Checked (forming_fixed problem.now setting.now) result }
        ensures kept { OnOk result (AreKeptFixed problem.now self.new) }
        ensures values { AreKeptValues problem.now setting.now [] self.new }
        ensures stays { StaysKept self.old self.new }
        ensures only { AreOnlyFixed problem.now self.old → AreOnlyFixed problem.now self.new }
    {
        let point = Point::empty(alloc);
        let end = problem.tree.nodes();
        self.form_marked(alloc, problem, fixed, 0, end, &point, setting)
    }

    /// Keeps the values of the marked nodes alone.
    pub fn keep(&mut self, marks: &[bool])
        ensures count { length self.new ≡ length self.old }
        ensures each { (i : ℕ) → array_at self.new i ≡ kept_if (slice_index_or marks.now i false) (array_at self.old i) }
    {
        keep_marked(&mut self.arrays, marks);
    }

    /// Forms the values of the marked nodes, but for those that are kept. All marks stand from `low` on and before `end`.
    fn form_marked(
        &mut self,
        alloc: Global,
        problem: &Problem,
        marks: &[bool],
        low: u32,
        end: u32,
        point: &Point,
        setting: &Setting,
    ) -> Result<(), CertFault>
        requires most { end ≤ length problem.now.tree }
        requires within { AreWithin marks.now low end }
        requires closed { AreClosed problem.now.tree self.old marks.now }
        requires given { (i : ℕ) (n : Node) → IsMarked marks.now i → IsNode problem.now.tree i n → IsGiven n.call setting.now point.now }
        requires values { AreKeptValues problem.now setting.now point.now self.old }
        ensures checked { Checked (forming_where problem.now setting.now point.now (IsMarked marks.now)) result }
        ensures kept { OnOk result (AreKeptWhere marks.now self.new) }
        ensures values { AreKeptValues problem.now setting.now point.now self.new }
        ensures stays { StaysKept self.old self.new }
        ensures only { (j : ℕ) → IsSome (array_at self.new j) → IsMarked marks.now j ⊎ IsSome (array_at self.old j) }
    {
        for i in low..end {
            if is_marked(marks, NodeId(i)) {
                self.form_node(alloc, problem, NodeId(i), point, setting)?;
            }
        }
        Ok(())
    }

    /// Forms the value of a node, if it isn't kept.
    pub(crate) fn form_node(
        &mut self,
        alloc: Global,
        problem: &Problem,
        node: NodeId,
        point: &Point,
        setting: &Setting,
    ) -> Result<(), CertFault>
        requires there { node.0 < length problem.now.tree }
        requires given { (n : Node) → IsNode problem.now.tree node.0 n → IsGiven n.call setting.now point.now }
        requires args { All (λ a. IsSome (array_at self.old a)) (args_at problem.now.tree node.0) }
        requires values { AreKeptValues problem.now setting.now point.now self.old }
        ensures kept { OnOk result (IsSome (array_at self.new node.0)) }
        ensures fault { IfErr result (λ f. (f ≡ Memory) ⊎ IsUnformedAt problem.now setting.now point.now node.0 f) }
        ensures values { AreKeptValues problem.now setting.now point.now self.new }
        ensures stays { StaysKept self.old self.new }
        ensures only { (j : ℕ) → IsSome (array_at self.new j) → (j ≡ node.0) ⊎ IsSome (array_at self.old j) }
    {
        if is_kept(&self.arrays, node) {
            return Ok(());
        }
        match node_value(alloc, &problem.tree, node, &self.arrays, point, setting) {
            Ok(array) => {
                self.arrays[node.0 as usize] = Some(array);
                Ok(())
            }
            Err(stop) => Err(fault_of(node, stop)),
        }
    }
}
