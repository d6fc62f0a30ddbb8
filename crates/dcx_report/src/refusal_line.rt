//! Appends the line of a refusal.
ghost use Rattle.std.specs.Prelude.{◌≡◌, ◌++◌, OnOk};
ghost use Rattle.dcx_report.specs.RefusalText.{source_text, count_text, rule_text, not_ranged_text, carried_text, refusal_text};

use crate::Refusal;
use crate::pieces::{put_both, put_numbered, put_passes, put_place};
use dcx_answer::NotRanged;
use dcx_arena::Count;
use dcx_lines::put_bytes;
use dcx_refusal::{Carried, RefusalSource};
use dcx_rules::Rule;
use std::alloc::AllocError;

/// The word for a file.
#[tactic(auto, unfolding(crate::specs::RefusalText::source_text))]
fn word_of_source(source: RefusalSource) -> &'static [u8]
    ensures { result.now ≡ source_text source }
{
    match source {
        RefusalSource::Script => b"script",
        RefusalSource::Settings => b"settings",
        RefusalSource::Certificate => b"certificate",
    }
}

/// The word for what was counted.
#[tactic(auto, unfolding(crate::specs::RefusalText::count_text))]
fn word_of_count(what: Count) -> &'static [u8]
    ensures { result.now ≡ count_text what }
{
    match what {
        Count::Nodes => b"nodes",
        Count::Entries => b"entries",
        Count::Items => b"items",
        Count::Steps => b"steps",
        Count::Events => b"events",
    }
}

/// The word for a rule.
#[tactic(auto, unfolding(crate::specs::RefusalText::rule_text))]
fn word_of_rule(rule: Rule) -> &'static [u8]
    ensures { result.now ≡ rule_text rule }
{
    match rule {
        Rule::Composition => b"composition",
        Rule::Minimize => b"minimize",
        Rule::Maximize => b"maximize",
        Rule::Equal => b"equal",
        Rule::AtMost => b"at_most",
    }
}

/// The word for why a parameter has no range.
#[tactic(auto, unfolding(crate::specs::RefusalText::not_ranged_text))]
fn word_of_fault(fault: NotRanged) -> &'static [u8]
    ensures { result.now ≡ not_ranged_text fault }
{
    match fault {
        NotRanged::Unknown => b"unknown",
        NotRanged::Shape => b"shape",
        NotRanged::Map => b"map",
        NotRanged::Coefficient => b"coefficient",
    }
}

/// Appends what a refusal carries, behind its place.
#[tactic(auto, unfolding(crate::specs::RefusalText::carried_text))]
fn put_carried(out: &mut Vec<u8>, carried: &Carried) -> Result<(), AllocError>
    ensures { OnOk result (out.new.items ≡ out.old.items ++ carried_text carried.now) }
{
    match carried {
        Carried::Nothing => Ok(()),
        Carried::Count { what, count } => {
            put_both(out, b" ", word_of_count(*what))?;
            put_numbered(out, b" ", u64::from(*count))
        }
        Carried::Rule(rule) => put_both(out, b" rule ", word_of_rule(*rule)),
        Carried::Passes(passes) => put_passes(out, passes),
        Carried::NotRanged(fault) => put_both(out, b" ", word_of_fault(*fault)),
    }
}

/// Appends the line of a refusal.
#[tactic(auto, unfolding(crate::specs::RefusalText::refusal_text))]
pub(crate) fn put_refusal(out: &mut Vec<u8>, refusal: &Refusal) -> Result<(), AllocError>
    ensures { OnOk result (out.new.items ≡ out.old.items ++ refusal_text refusal.now) }
{
    put_both(out, b"refused ", word_of_source(refusal.source))?;
    put_numbered(out, b" ", u64::from(refusal.number))?;
    put_both(out, b" ", refusal.name())?;
    put_bytes(out, b" at ")?;
    put_place(out, refusal.place)?;
    put_carried(out, &refusal.carried)?;
    put_bytes(out, b"\n")
}
