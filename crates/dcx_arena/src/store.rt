//! How nodes lie in memory, and how one is found or added.
ghost use Rattle.std.specs.Prelude.{◌≡◌, ℕ, ◌<◌, ◌≤◌, ◌+◌, ◌++◌, ◌∷◌, [], List, length, IsTrue, ◌↔◌, None, IfSome, IfNone, IfOk, IfErr, OnOk, OnErr, Some, All, map, slice_get, slice_index_or};
ghost use Rattle.dcx_shape.specs.Shape.{sides_of};
ghost use Rattle.dcx_shape.specs.Sides.{entries_of};
ghost use Rattle.dcx_arena.specs.Nodes.{positions, sides_at, Holds, IsNew, IsWithin, IsExcess, PushEnds, IsPushed};
ghost use Rattle.dcx_arena.specs.Chains.{chain, IsChain, IsKept, IsLast, bucket_for, number_of_buckets, nodes_of, nodes_in, sides_in, IsSound};
ghost use Rattle.dcx_arena.specs.declared.store.Cell.{Cell};

use crate::fault::{Count, TreeFault};
use crate::node::NodeId;
use crate::operator::Operator;
use dcx_shape::{Place, Shape};
use std::alloc::{AllocError, Global};

/// One argument of a node, and the place of the next one.
#[derive(Clone, Copy)]
pub struct Cell {
    pub node: u32,
    pub next: usize,
}

/// A node as it lies in the store.
#[derive(Drop)]
pub struct Stored<C> {
    pub call: C,
    pub shape: Shape,
    pub place: Place,
    // How many cells name the arguments, and where the first one is.
    pub count: usize,
    pub first: usize,
    // The bucket, and the node before this one in it.
    pub bucket: u32,
    pub next: Option<u32>,
}

/// The nodes, and the heads by which they are found.
#[derive(Drop)]
pub struct Store<C> {
    pub cells: Vec<Cell>,
    pub stored: Vec<Stored<C>>,
    // The last node of each bucket.
    pub heads: Vec<Option<u32>>,
    // The shapes of the arguments of the call that is added, here so that their memory is taken once.
    pub shapes: Vec<Shape>,
    // The entries over all nodes.
    pub entries: u32,
}

impl<C> Store<C> {
    /// No nodes. Takes no memory.
    pub fn new(alloc: Global) -> Store<C>
        ensures cells { result.cells.items ≡ [] }
        ensures stored { result.stored.items ≡ [] }
        ensures heads { result.heads.items ≡ [] }
        ensures entries { result.entries ≡ 0 }
    {
        Store {
            cells: Vec::new(alloc),
            stored: Vec::new(alloc),
            heads: Vec::new(alloc),
            shapes: Vec::new(alloc),
            entries: 0,
        }
    }
}

const BUCKETS: u32 = 8191;

const MOST: u32 = 20_000;

// The bucket of a call with its arguments.
fn bucket<C: Operator>(call: &C, args: &[NodeId]) -> u32
    ensures value { result ≡ bucket_for C.bucket_of call.now (positions args.now) }
    ensures within { result < number_of_buckets }
{
    let mut n = call.bucket() % BUCKETS;
    for a in args {
        n = (n * 89 + a.0 % BUCKETS) % BUCKETS;
    }
    n
}

// Whether a chain names these nodes.
fn is_chain_of(cells: &[Cell], count: usize, first: usize, args: &[NodeId]) -> bool
    requires { IsChain cells.now count first }
    ensures { IsTrue result ↔ (chain cells.now count first ≡ positions args.now) }
{
    if count != args.len() {
        return false;
    }
    let mut at = first;
    for a in args {
        let cell = cells[at];
        if cell.node != a.0 {
            return false;
        }
        at = cell.next;
    }
    true
}

// The node of this call with these arguments, found from the head of its bucket's chain.
fn find<C: Operator>(
    cells: &[Cell],
    stored: &[Stored<C>],
    head: Option<u32>,
    call: &C,
    args: &[NodeId],
) -> Option<u32>
    requires kept { IsKept C.bucket_of cells.now stored.now }
    requires head { IsLast stored.now (length stored.now) (bucket_for C.bucket_of call.now (positions args.now)) head }
    ensures some { IfSome result (λ i. Holds (nodes_of cells.now stored.now) call.now (positions args.now) i) }
    ensures none { IfNone result (IsNew (nodes_of cells.now stored.now) call.now (positions args.now)) }
{
    let mut at = head;
    while let Some(i) = at {
        let node = &stored[i as usize];
        if node.call.same(call) && is_chain_of(cells, node.count, node.first, args) {
            return Some(i);
        }
        at = node.next;
    }
    None
}

// The shapes of these nodes, in place of those that were there.
fn read_shapes<C: Operator>(
    shapes: &mut Vec<Shape>,
    stored: &[Stored<C>],
    args: &[NodeId],
) -> Result<(), AllocError>
    requires { All (λ a. a < length stored.now) (positions args.now) }
    ensures { OnOk result (map sides_of shapes.new.items ≡ map (sides_in stored.now) (positions args.now)) }
{
    shapes.clear();
    for a in args {
        shapes.push(stored[a.0 as usize].shape)?;
    }
    Ok(())
}

/// The node that cell `i` of a chain names.
pub fn node_in(cells: &[Cell], count: usize, first: usize, i: u32) -> u32
    requires chain { IsChain cells.now count first }
    requires below { i < count }
    ensures { slice_get (chain cells.now count first) i ≡ Some result }
{
    let mut at = first;
    for _ in 0..i {
        at = cells[at].next;
    }
    cells[at].node
}

/// The nodes that a chain names.
pub fn ids_in(
    alloc: Global,
    cells: &[Cell],
    count: usize,
    first: usize,
) -> Result<Vec<NodeId>, AllocError>
    requires { IsChain cells.now count first }
    ensures { IfOk result (λ v. positions v.items ≡ chain cells.now count first) }
{
    let mut ids = Vec::new(alloc);
    let mut at = first;
    for _ in 0..count {
        let cell = cells[at];
        ids.push(NodeId(cell.node))?;
        at = cell.next;
    }
    Ok(ids)
}

// Makes room for a head for each bucket.
fn ready(heads: &mut Vec<Option<u32>>) -> Result<(), AllocError>
    ensures room { OnOk result (number_of_buckets ≤ length heads.new.items) }
    ensures same { (b : ℕ) → slice_index_or heads.new.items b None ≡ slice_index_or heads.old.items b None }
{
    while heads.len() < BUCKETS as usize {
        heads.push(None)?;
    }
    Ok(())
}

// Cells for these arguments, at the end.
fn add_cells(cells: &mut Vec<Cell>, args: &[NodeId]) -> Result<(), AllocError>
    ensures more { (more : List Cell) × (cells.new.items ≡ cells.old.items ++ more) }
    ensures there { OnOk result (IsChain cells.new.items (length args.now) (length cells.old.items)) }
    ensures chain { OnOk result (chain cells.new.items (length args.now) (length cells.old.items) ≡ positions args.now) }
{
    for a in args {
        let next = cells.len() + 1;
        cells.push(Cell { node: a.0, next })?;
    }
    Ok(())
}

// Whether there may be so many nodes and entries.
fn check_room(nodes: u32, entries: u32) -> Result<(), TreeFault>
    ensures ok { OnOk result (IsWithin nodes entries) }
    ensures err { IfErr result (IsExcess nodes entries) }
{
    if nodes > MOST {
        return Err(TreeFault::TooMany {
            what: Count::Nodes,
            count: nodes,
        });
    }
    if entries > MOST {
        return Err(TreeFault::TooMany {
            what: Count::Entries,
            count: entries,
        });
    }
    Ok(())
}

// Adds a node that isn't there, of this shape and for this bucket.
fn append<C: Operator>(
    store: &mut Store<C>,
    call: C,
    args: &[NodeId],
    shape: Shape,
    place: Place,
    bucket: u32,
) -> Result<NodeId, TreeFault>
    requires sound { IsSound C.gives C.bucket_of store.old }
    requires heads { number_of_buckets ≤ length store.old.heads.items }
    requires args { All (λ a. a < length (nodes_in store.old)) (positions args.now) }
    requires shape { C.gives call (map (sides_at (nodes_in store.old)) (positions args.now)) ≡ Some (sides_of shape) }
    requires bucket { bucket ≡ bucket_for C.bucket_of call (positions args.now) }
    requires within { bucket < number_of_buckets }
    requires new { IsNew (nodes_in store.old) call (positions args.now) }
    ensures sound { IsSound C.gives C.bucket_of store.new }
    ensures pushed { PushEnds (nodes_in store.old) (record { call = call; args = positions args.now; sides = sides_of shape; place = place }) result (nodes_in store.new) }
    ensures same { OnErr result (nodes_in store.new ≡ nodes_in store.old) }
{
    let len = store.stored.len() as u32;
    let entries = store.entries + shape.size();
    check_room(len + 1, entries)?;
    let first = store.cells.len();
    add_cells(&mut store.cells, args)?;
    let head = store.heads[bucket as usize];
    store.stored.push(Stored {
        call,
        shape,
        place,
        count: args.len(),
        first,
        bucket,
        next: head,
    })?;
    store.heads[bucket as usize] = Some(len);
    store.entries = entries;
    Ok(NodeId(len))
}

/// The node of a call, found or added.
pub fn find_or_add<C: Operator>(
    store: &mut Store<C>,
    call: C,
    args: &[NodeId],
    place: Place,
) -> Result<NodeId, TreeFault>
    requires sound { IsSound C.gives C.bucket_of store.old }
    requires args { All (λ a. a < length (nodes_in store.old)) (positions args.now) }
    ensures sound { IsSound C.gives C.bucket_of store.new }
    ensures pushed { IsPushed C.gives (nodes_in store.old) call (positions args.now) place result (nodes_in store.new) }
    ensures same { OnErr result (nodes_in store.new ≡ nodes_in store.old) }
{
    read_shapes(&mut store.shapes, &store.stored, args)?;
    let Some(shape) = call.shape(&store.shapes) else {
        return Err(TreeFault::Clash);
    };
    ready(&mut store.heads)?;
    let bucket = bucket(&call, args);
    let head = store.heads[bucket as usize];
    match find(&store.cells, &store.stored, head, &call, args) {
        Some(i) => Ok(NodeId(i)),
        None => append(store, call, args, shape, place, bucket),
    }
}
