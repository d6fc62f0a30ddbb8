//! The order in which the nodes that roots reach are first finished.
ghost use Rattle.std.specs.Prelude.{◌≡◌, ◌<◌, ◌≤◌, ◌+◌, ◌*◌, ◌++◌, ◌∷◌, [], length, replicate, None, IfOk, OnOk, All};
ghost use Rattle.std.specs.List.{flat_map};
ghost use Rattle.dcx_arena.specs.Nodes.{positions, most};
ghost use Rattle.dcx_arena.specs.Chains.{nodes_in, IsSound};
ghost use Rattle.dcx_arena.specs.Gather.{with_new, with_all, postorder, order_of};
ghost use Rattle.dcx_arena.specs.Walk.{IsNumbering, IsFinished, AreReady, todo, steps_of};

use crate::node::NodeId;
use crate::operator::Operator;
use crate::store::Store;
use std::alloc::{AllocError, Global};

/// A node that is entered, and its arguments that are still to do.
#[derive(Clone, Copy)]
pub struct Frame {
    pub node: u32,
    // How many cells are left, and where the first of them is.
    pub left: usize,
    pub at: usize,
}

/// The nodes that are finished.
#[derive(Drop)]
pub struct Finished {
    pub order: Vec<u32>,
    // Where each node of the tree stands in the order.
    pub numbers: Vec<Option<u32>>,
}

// Gives a node the next number, unless it has one.
fn finish(finished: &mut Finished, node: u32) -> Result<(), AllocError>
    requires numbering { IsNumbering finished.old.order.items finished.old.numbers.items }
    requires below { node < length finished.old.numbers.items }
    requires few { length finished.old.numbers.items ≤ most }
    ensures numbering { OnOk result (IsNumbering finished.new.order.items finished.new.numbers.items) }
    ensures order { OnOk result (finished.new.order.items ≡ with_new finished.old.order.items node) }
    ensures count { length finished.new.numbers.items ≡ length finished.old.numbers.items }
{
    if finished.numbers[node as usize].is_none() {
        finished.numbers[node as usize] = Some(finished.order.len() as u32);
        finished.order.push(node)?;
    }
    Ok(())
}

// Enters a node, unless it is finished.
fn enter<C: Operator>(
    frames: &mut Vec<Frame>,
    finished: &Finished,
    store: &Store<C>,
    node: u32,
) -> Result<(), AllocError>
    requires sound { IsSound C.gives C.bucket_of store.now }
    requires below { node < length (nodes_in store.now) }
    requires finished { IsFinished (nodes_in store.now) finished.now }
    requires ready { AreReady store.now.cells.items (nodes_in store.now) (finished.now.order.items ++ postorder (nodes_in store.now) node) frames.old.items }
    ensures ready { OnOk result (AreReady store.now.cells.items (nodes_in store.now) finished.now.order.items frames.new.items) }
    ensures order { OnOk result (with_all finished.now.order.items (todo store.now.cells.items (nodes_in store.now) frames.new.items)
        ≡ with_all finished.now.order.items (postorder (nodes_in store.now) node ++ todo store.now.cells.items (nodes_in store.now) frames.old.items)) }
    ensures steps { OnOk result (steps_of store.now.cells.items (nodes_in store.now) frames.new.items
        < steps_of store.now.cells.items (nodes_in store.now) frames.old.items + 2 * length (postorder (nodes_in store.now) node)) }
{
    if finished.numbers[node as usize].is_none() {
        let entered = &store.stored[node as usize];
        frames.push(Frame {
            node,
            left: entered.count,
            at: entered.first,
        })?;
    }
    Ok(())
}

// Goes on with the next argument of a node, or finishes the node.
fn step<C: Operator>(
    frame: Frame,
    frames: &mut Vec<Frame>,
    finished: &mut Finished,
    store: &Store<C>,
) -> Result<(), AllocError>
    requires sound { IsSound C.gives C.bucket_of store.now }
    requires finished { IsFinished (nodes_in store.now) finished.old }
    requires ready { AreReady store.now.cells.items (nodes_in store.now) finished.old.order.items (frames.old.items ++ frame ∷ []) }
    ensures finished { OnOk result (IsFinished (nodes_in store.now) finished.new) }
    ensures ready { OnOk result (AreReady store.now.cells.items (nodes_in store.now) finished.new.order.items frames.new.items) }
    ensures order { OnOk result (with_all finished.new.order.items (todo store.now.cells.items (nodes_in store.now) frames.new.items)
        ≡ with_all finished.old.order.items (todo store.now.cells.items (nodes_in store.now) (frames.old.items ++ frame ∷ []))) }
    ensures steps { OnOk result (steps_of store.now.cells.items (nodes_in store.now) frames.new.items < steps_of store.now.cells.items (nodes_in store.now) (frames.old.items ++ frame ∷ [])) }
{
    if frame.left == 0 {
        return finish(finished, frame.node);
    }
    let cell = store.cells[frame.at];
    frames.push(Frame {
        node: frame.node,
        left: frame.left - 1,
        at: cell.next,
    })?;
    enter(frames, finished, store, cell.node)
}

// Finishes the nodes that a root reaches.
fn finish_root<C: Operator>(
    alloc: Global,
    finished: &mut Finished,
    store: &Store<C>,
    root: u32,
) -> Result<(), AllocError>
    requires sound { IsSound C.gives C.bucket_of store.now }
    requires finished { IsFinished (nodes_in store.now) finished.old }
    requires below { root < length (nodes_in store.now) }
    ensures finished { OnOk result (IsFinished (nodes_in store.now) finished.new) }
    ensures order { OnOk result (finished.new.order.items ≡ with_all finished.old.order.items (postorder (nodes_in store.now) root)) }
{
    let mut frames = Vec::new(alloc);
    enter(&mut frames, finished, store, root)?;
    'frames: while let Some(frame) = frames.pop() {
        step(frame, &mut frames, finished, store)?;
    }
    Ok(())
}

// No node of so many is finished.
fn unfinished(alloc: Global, nodes: usize) -> Result<Finished, AllocError>
    ensures order { IfOk result (λ f. f.order.items ≡ []) }
    ensures numbers { IfOk result (λ f. f.numbers.items ≡ replicate nodes None) }
{
    let mut numbers = Vec::new(alloc);
    for _ in 0..nodes {
        numbers.push(None)?;
    }
    Ok(Finished {
        order: Vec::new(alloc),
        numbers,
    })
}

/// Finishes the nodes that the roots reach, root by root.
pub fn finish_all<C: Operator>(
    alloc: Global,
    store: &Store<C>,
    roots: &[NodeId],
) -> Result<Finished, AllocError>
    requires sound { IsSound C.gives C.bucket_of store.now }
    requires below { All (λ r. r < length (nodes_in store.now)) (positions roots.now) }
    ensures finished { IfOk result (IsFinished (nodes_in store.now)) }
    ensures order { IfOk result (λ f. f.order.items ≡ order_of (nodes_in store.now) (positions roots.now)) }
{
    let mut finished = unfinished(alloc, store.stored.len())?;
    for root in roots {
        finish_root(alloc, &mut finished, store, root.0)?;
    }
    Ok(finished)
}
