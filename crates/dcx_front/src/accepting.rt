//! The one door: bytes are read, the script is carried out, and the rules judge its problem.
ghost use Rattle.std.specs.Prelude.{Err};
ghost use Rattle.dcx_rules.specs.Sites.{IsFaultOf};
ghost use Rattle.dcx_front.specs.Accepts.{Judges, GivesOfScript, Gives};
ghost use Rattle.dcx_front.specs.OneAnswer.{IsOnlyAnswer, IsVerdictOn};

use crate::numbers::{faulty, unread};
use crate::sites::not_dcp;
use crate::{Accepted, FrontFault};
use dcx_elab::{Work, elaborate};
use dcx_read::parse;
use dcx_refusal::RefusalSource;
use dcx_rules::{RuleFault, check};
use dcx_syntax::Script;
use std::alloc::Global;

/// Why what a script stands for isn't accepted, where the rules have this fault of its problem.
fn broken(work: &Work, fault: RuleFault) -> FrontFault
    requires { IsFaultOf work.now.problem fault }
    ensures { Judges work.now (Err result) }
{
    match fault {
        RuleFault::NotDcp { site, rule } => {
            FrontFault::Refused(not_dcp(&work.problem, site, rule))
        }
        RuleFault::Memory => FrontFault::Memory,
    }
}

/// What the rules say of what a script stands for.
fn judged(alloc: Global, work: Work) -> Result<Accepted, FrontFault>
    ensures { Judges work result }
{
    match check(alloc, &work.problem) {
        Ok(verdict) => Ok(Accepted { work, verdict }),
        Err(fault) => {
            let end = broken(&work, fault);
            drop(work);
            Err(end)
        }
    }
}

/// What a script gives.
fn carried_out(alloc: Global, script: &Script) -> Result<Accepted, FrontFault>
    ensures { GivesOfScript script.now result }
{
    match elaborate(alloc, script) {
        Ok(work) => judged(alloc, work),
        Err(fault) => Err(faulty(fault)),
    }
}

/// The problem that the bytes of a script stand for, where the rules of disciplined convex programming accept it, with the
/// settings of its solves and what is found of its nodes.
///
/// `Refused` is the first fault of reading, or else of carrying the script out, or else the first site of the problem that
/// breaks its rule. `Memory` says that memory ran out.
pub fn accept(alloc: Global, bytes: &[u8]) -> Result<Accepted, FrontFault>
    ensures gives { Gives bytes.now result }
    ensures only { IsOnlyAnswer bytes.now result }
    ensures verdict { IsVerdictOn bytes.now result }
{
    match parse(alloc, bytes) {
        Ok(script) => carried_out(alloc, &script),
        Err(fault) => Err(unread(RefusalSource::Script, fault)),
    }
}
