//! The part of the nodes that is finished, as a store of its own.
ghost use Rattle.std.specs.Prelude.{◌≡◌, ◌<◌, ◌+◌, ℕ, true, length, Some, IfOk, OnOk, slice_get};
ghost use Rattle.dcx_arena.specs.Nodes.{positions, AreNodes};
ghost use Rattle.dcx_arena.specs.Chains.{chain, IsChain, IsKept, nodes_of, node_of, nodes_in, IsSound};
ghost use Rattle.dcx_arena.specs.Gather.{has, StandFor, AreRenamed};
ghost use Rattle.dcx_arena.specs.Walk.{IsNumbering, IsFinished};

use crate::fault::TreeFault;
use crate::node::NodeId;
use crate::operator::Operator;
use crate::store::{Cell, Store, find_or_add};
use crate::walk::Finished;
use std::alloc::{AllocError, Global};

// Where a node stands in the order.
fn number_of(finished: &Finished, node: u32) -> NodeId
    requires numbering { IsNumbering finished.now.order.items finished.now.numbers.items }
    requires there { has finished.now.order.items node ≡ true }
    ensures { slice_get finished.now.order.items result.0 ≡ Some node }
{
    match finished.numbers[node as usize] {
        Some(k) => NodeId(k),
        None => unreachable!(),
    }
}

/// Where these nodes stand in the order.
pub fn numbers_of(
    alloc: Global,
    finished: &Finished,
    nodes: &[NodeId],
) -> Result<Vec<NodeId>, AllocError>
    requires numbering { IsNumbering finished.now.order.items finished.now.numbers.items }
    requires there { (a : ℕ) → has (positions nodes.now) a ≡ true → has finished.now.order.items a ≡ true }
    ensures { IfOk result (λ v. StandFor finished.now.order.items (positions v.items) (positions nodes.now)) }
{
    let mut numbers = Vec::new(alloc);
    for node in nodes {
        numbers.push(number_of(finished, node.0))?;
    }
    Ok(numbers)
}

// Where the nodes that a chain names stand in the order, in place of what was there.
fn read_numbers(
    numbers: &mut Vec<NodeId>,
    finished: &Finished,
    cells: &[Cell],
    count: usize,
    first: usize,
) -> Result<(), AllocError>
    requires numbering { IsNumbering finished.now.order.items finished.now.numbers.items }
    requires chain { IsChain cells.now count first }
    requires there { (a : ℕ) → has (chain cells.now count first) a ≡ true → has finished.now.order.items a ≡ true }
    ensures { OnOk result (StandFor finished.now.order.items (positions numbers.new.items) (chain cells.now count first)) }
{
    numbers.clear();
    let mut at = first;
    for _ in 0..count {
        let cell = cells[at];
        numbers.push(number_of(finished, cell.node))?;
        at = cell.next;
    }
    Ok(())
}

// The fault of a push for which there was room.
fn memory_alone(_fault: TreeFault) -> AllocError
    requires { _fault ≡ TreeFault.Memory }
{
    AllocError
}

// Adds the next node of the order to the part.
fn add_next<C: Operator>(
    alloc: Global,
    part: &mut Store<C>,
    args: &mut Vec<NodeId>,
    finished: &Finished,
    store: &Store<C>,
    node: u32,
) -> Result<(), AllocError>
    requires whole { IsSound C.gives C.bucket_of store.now }
    requires finished { IsFinished (nodes_in store.now) finished.now }
    requires sound { IsSound C.gives C.bucket_of part.old }
    requires renamed { AreRenamed (nodes_in store.now) finished.now.order.items (nodes_in part.old) }
    requires next { slice_get finished.now.order.items (length (nodes_in part.old)) ≡ Some node }
    ensures sound { OnOk result (IsSound C.gives C.bucket_of part.new) }
    ensures renamed { OnOk result (AreRenamed (nodes_in store.now) finished.now.order.items (nodes_in part.new)) }
    ensures count { OnOk result (length (nodes_in part.new) ≡ length (nodes_in part.old) + 1) }
{
    let node = &store.stored[node as usize];
    read_numbers(args, finished, &store.cells, node.count, node.first)?;
    let call = node.call.copy(alloc)?;
    match find_or_add(part, call, args, node.place) {
        Ok(_) => Ok(()),
        Err(fault) => Err(memory_alone(fault)),
    }
}

/// The nodes of the order, renamed.
pub fn part_of<C: Operator>(
    alloc: Global,
    finished: &Finished,
    store: &Store<C>,
) -> Result<Store<C>, AllocError>
    requires whole { IsSound C.gives C.bucket_of store.now }
    requires finished { IsFinished (nodes_in store.now) finished.now }
    ensures sound { IfOk result (IsSound C.gives C.bucket_of) }
    ensures renamed { IfOk result (λ s. AreRenamed (nodes_in store.now) finished.now.order.items (nodes_in s)) }
    ensures count { IfOk result (λ s. length (nodes_in s) ≡ length finished.now.order.items) }
{
    let mut part = Store::new(alloc);
    let mut args = Vec::new(alloc);
    for node in &finished.order {
        add_next(alloc, &mut part, &mut args, finished, store, *node)?;
    }
    Ok(part)
}
