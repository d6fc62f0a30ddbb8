//! The rows and unknowns that stand for nonlinear calls.
use crate::calls::atom;
use crate::lines::CaseFault;
use crate::parts::{Written, all, put_all, put_coefficient};
use dcx_atom::{Atom, AuxKind, AuxTerm, Graph, GraphForm, GraphRow, GraphTerm, Operand};
use dcx_shape::Shape;
use std::alloc::{AllocError, Global};

/// `rows CALL | SHAPE | .. => ROW; ROW` with the result entry of each row before its terms, which add up to at most 0, and
/// `unknowns CALL | SHAPE | .. => KIND KIND; FORM; FORM` with a form of the unknowns for each result entry. `x1.2` is entry
/// 2 of argument 1, and `t3` is unknown 3.
pub(crate) fn put_asked(
    alloc: Global,
    first: &str,
    rest: &[&str],
    out: &mut String,
) -> Result<(), CaseFault> {
    let shapes = all(alloc, rest)?;
    match first.split_once(' ') {
        Some((asked, text)) => put_graph(alloc, asked, text, &shapes, out),
        None => Err(CaseFault::Unreadable),
    }
}

/// Writes the rows of a call, or the unknowns.
fn put_graph(
    alloc: Global,
    asked: &str,
    text: &str,
    shapes: &[Shape],
    out: &mut String,
) -> Result<(), CaseFault> {
    let atom = atom(text)?;
    let graph = graph(alloc, &atom, shapes)?;
    put_of_graph(out, asked, &graph)
}

/// Writes the rows of a graph, or its unknowns.
fn put_of_graph(out: &mut String, asked: &str, graph: &Graph) -> Result<(), CaseFault> {
    match asked {
        "rows" => Ok(put_all(out, graph.rows.as_slice(), "; ")?),
        "unknowns" => Ok(put_unknowns(out, graph)?),
        _ => Err(CaseFault::Unreadable),
    }
}

/// The rows of any nonlinear call.
fn graph<A: Atom>(alloc: Global, atom: &A, args: &[Shape]) -> Result<Graph, CaseFault> {
    match atom.shape(args) {
        Some(_) => Ok(atom.graph(alloc, args)?),
        None => Err(CaseFault::Unreadable),
    }
}

impl Written for Operand {
    fn put(&self, out: &mut String) -> Result<(), AllocError> {
        match self {
            Operand::Argument { argument, entry } => write!(out, "x{argument}.{entry}"),
            Operand::Aux(unknown) => write!(out, "t{unknown}"),
        }
    }
}

impl Written for GraphTerm {
    fn put(&self, out: &mut String) -> Result<(), AllocError> {
        put_coefficient(out, self.coefficient)?;
        self.operand.put(out)
    }
}

impl Written for GraphRow {
    fn put(&self, out: &mut String) -> Result<(), AllocError> {
        write!(out, "{}: ", self.entry)?;
        put_all(out, self.terms.as_slice(), " ")
    }
}

impl Written for AuxKind {
    fn put(&self, out: &mut String) -> Result<(), AllocError> {
        match self {
            AuxKind::Free => out.push_str("free"),
            AuxKind::Nonneg => out.push_str("nonneg"),
        }
    }
}

impl Written for AuxTerm {
    fn put(&self, out: &mut String) -> Result<(), AllocError> {
        put_coefficient(out, self.coefficient)?;
        write!(out, "t{}", self.aux)
    }
}

impl Written for GraphForm {
    fn put(&self, out: &mut String) -> Result<(), AllocError> {
        put_all(out, self.as_slice(), " ")
    }
}

/// Writes the kinds of the unknowns, and then the forms of the results.
fn put_unknowns(out: &mut String, graph: &Graph) -> Result<(), AllocError> {
    put_all(out, graph.aux.as_slice(), " ")?;
    out.push_str("; ")?;
    put_all(out, graph.results.as_slice(), "; ")
}
