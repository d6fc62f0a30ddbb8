//! What is pushed into a tree, node by node.
use crate::calls::call;
use crate::lines::{CaseFault, words};
use crate::parts::{all, put_shown, put_word};
use dcx_call::Call;
use dcx_shape::Place;
use dcx_tree::{NodeId, Tree, TreeFault};
use std::alloc::Global;

/// `CALL | CALL of 0 | CALL of 0 1 | .. => 0; 1; 1`, in which each push gives its node, or why there is none.
pub(crate) fn put_pushes(
    alloc: Global,
    first: &str,
    rest: &[&str],
    out: &mut String,
) -> Result<(), CaseFault> {
    put_each(alloc, &mut Tree::new(alloc), first, rest, out)
}

/// Writes what comes of each push, the first one and the rest.
fn put_each(
    alloc: Global,
    tree: &mut Tree,
    first: &str,
    rest: &[&str],
    out: &mut String,
) -> Result<(), CaseFault> {
    put_push(alloc, tree, first, out)?;
    for part in rest {
        out.push_str("; ")?;
        put_push(alloc, tree, *part, out)?;
    }
    Ok(())
}

/// Writes what the push that a text says gives.
fn put_push(alloc: Global, tree: &mut Tree, text: &str, out: &mut String) -> Result<(), CaseFault> {
    let (text, args) = text.split_once(" of ").unwrap_or((text, ""));
    let args = counts(alloc, args)?;
    put_pushed(out, pushed(alloc, tree, text, &args))
}

/// The counts of a text.
fn counts(alloc: Global, text: &str) -> Result<Vec<u32>, CaseFault> {
    let words = words(alloc, text)?;
    all(alloc, &words)
}

/// What the push of a call with these arguments gives.
fn pushed(
    alloc: Global,
    tree: &mut Tree,
    text: &str,
    args: &[u32],
) -> Result<Result<NodeId, TreeFault>, CaseFault> {
    Ok(push(tree, call(alloc, text)?, args))
}

/// What the push of a call with these arguments gives; `Memory` too where an argument isn't there, or where there are over two.
fn push(tree: &mut Tree, call: Call, args: &[u32]) -> Result<NodeId, TreeFault> {
    let place = Place { line: 1, column: 1 };
    match *args {
        [] => tree.push(call, &[], place),
        [a] if a < tree.nodes() => tree.push(call, &[NodeId(a)], place),
        [a, b] if a < tree.nodes() && b < tree.nodes() => {
            tree.push(call, &[NodeId(a), NodeId(b)], place)
        }
        _ => Err(TreeFault::Memory),
    }
}

/// Writes the node, or why there is none.
fn put_pushed(
    out: &mut String,
    pushed: Result<Result<NodeId, TreeFault>, CaseFault>,
) -> Result<(), CaseFault> {
    match pushed? {
        Ok(node) => put_shown(out, &node.0),
        Err(TreeFault::Clash) => put_word(out, "clash"),
        Err(fault) => put_shown(out, &fault),
    }
}
