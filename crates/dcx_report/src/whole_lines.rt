//! Appends how a setting ends at which a problem with marked variables is solved.
ghost use Rattle.std.specs.Prelude.{◌≡◌, ◌++◌, OnOk};
ghost use Rattle.dcx_report.specs.WholeText.{nodes_line, whole_text, node_text, limit_text, branch_stop_text};

use crate::answer_lines::{put_user_line, put_var_lines};
use crate::pieces::put_numbered;
use crate::stop_line::{name_of_stop, put_details, put_stop};
use crate::{BranchStop, Sense, Stop, WholeAnswer};
use dcx_lines::put_bytes;
use std::alloc::AllocError;

/// Appends how many nodes a run has.
#[tactic(auto, unfolding(crate::specs::WholeText::nodes_line))]
fn put_nodes(out: &mut Vec<u8>, nodes: u32) -> Result<(), AllocError>
    ensures { OnOk result (out.new.items ≡ out.old.items ++ nodes_line nodes) }
{
    put_numbered(out, b"nodes ", u64::from(nodes))?;
    put_bytes(out, b"\n")
}

/// Appends a whole answer, behind the number of its setting.
#[tactic(auto, unfolding(crate::specs::WholeText::whole_text))]
pub(crate) fn put_whole(
    out: &mut Vec<u8>,
    sense: Sense,
    answer: &WholeAnswer,
) -> Result<(), AllocError>
    ensures { OnOk result (out.new.items ≡ out.old.items ++ whole_text sense answer.now) }
{
    match answer {
        WholeAnswer::Optimal {
            value,
            point,
            nodes,
            ..
        } => {
            put_bytes(out, b" whole optimal\n")?;
            put_user_line(out, b"value", sense, *value)?;
            put_var_lines(out, point)?;
            put_nodes(out, *nodes)
        }
        WholeAnswer::Infeasible { nodes, .. } => {
            put_bytes(out, b" whole infeasible\n")?;
            put_nodes(out, *nodes)
        }
    }
}

/// Appends that a node is stopped.
#[tactic(auto, unfolding(crate::specs::WholeText::node_text))]
fn put_node(out: &mut Vec<u8>, node: u32) -> Result<(), AllocError>
    ensures { OnOk result (out.new.items ≡ out.old.items ++ node_text node) }
{
    put_numbered(out, b" stopped 33 Branch node ", u64::from(node))?;
    put_bytes(out, b" ")
}

/// Appends that the run has too many nodes.
#[tactic(auto, unfolding(crate::specs::WholeText::limit_text))]
fn put_limit(out: &mut Vec<u8>, limit: u32) -> Result<(), AllocError>
    ensures { OnOk result (out.new.items ≡ out.old.items ++ limit_text limit) }
{
    put_numbered(out, b" stopped 32 NodeLimit ", u64::from(limit))?;
    put_bytes(out, b"\n")
}

/// Appends why the run of nodes is stopped, behind the number of its setting.
#[tactic(auto, unfolding(crate::specs::WholeText::branch_stop_text))]
pub(crate) fn put_branch_stop(out: &mut Vec<u8>, stop: &BranchStop) -> Result<(), AllocError>
    ensures { OnOk result (out.new.items ≡ out.old.items ++ branch_stop_text stop.now) }
{
    match stop {
        BranchStop::RelaxationUnbounded => put_bytes(out, b" stopped 30 RelaxationUnbounded\n"),
        BranchStop::NodeLimit { limit } => put_limit(out, *limit),
        BranchStop::Node { node, stop } => {
            put_node(out, *node)?;
            put_bytes(out, name_of_stop(stop))?;
            put_details(out, None, stop)?;
            put_bytes(out, b"\n")
        }
        BranchStop::Memory => put_stop(out, Stop::Memory),
    }
}
