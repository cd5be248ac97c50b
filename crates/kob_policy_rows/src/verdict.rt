//! The cells of decisions, of parties and of names.

ghost use Rattle.std.specs.Prelude.{◌≡◌, ◌++◌, OnOk};
ghost use Rattle.std.specs.Option.{option_copied};
ghost use Rattle.kob_policy_rows.specs.Answers.{on_cells};
ghost use Rattle.kob_policy_rows.specs.Cells.{origin_cells, party_name, reason_word, target_cells};
ghost use Rattle.kob_policy_rows.specs.Cells.{verdict_cells};

use crate::cell::{Cell, push_flag, push_nothing, push_number, push_number_cell, push_words};
use kob_names::{Operation, PatternKind, ResourceKind, Text, Verdict};
use kob_policy_review::{Names, Target};
use kob_policy_text::{Judge, Origin, deciding, origin_by};
use kob_words::{operation_name, pattern_name, resource_name};
use std::alloc::{AllocError, Global};

/// File and line.
#[tactic(auto, using(kob_words::proofs::Appending::appending))]
pub fn push_origin(
    alloc: Global,
    row: &mut Vec<Cell>,
    origin: Option<&Origin>,
) -> Result<(), AllocError>
    ensures { OnOk result (row.new.items
        ≡ row.old.items ++ origin_cells (option_copied origin.entry)) }
{
    match origin {
        None => {
            push_nothing(row)?;
            push_nothing(row)
        }
        Some(origin) => {
            push_words(alloc, row, origin.file.as_str())?;
            push_number(row, origin.line)
        }
    }
}

fn reason_word(verdict: Verdict) -> &'static str
    ensures { result.now ≡ reason_word verdict }
{
    match verdict {
        Verdict::Super => "super",
        Verdict::AllowedBy(_) => "allow",
        Verdict::DeniedBy(_) => "deny",
        Verdict::NoAllow => "no-allow",
        Verdict::NoAclFound => "no-acl-found",
    }
}

/// An operation on a resource.
#[tactic(auto, using(kob_words::proofs::Appending::appending), unfolding(crate::specs::Answers::on_cells))]
pub fn push_on(
    alloc: Global,
    row: &mut Vec<Cell>,
    operation: Operation,
    resource: ResourceKind,
    name: &str,
) -> Result<(), AllocError>
    ensures { OnOk result
        (row.new.items ≡ row.old.items ++ on_cells operation resource name.now) }
{
    push_words(alloc, row, operation_name(operation))?;
    push_words(alloc, row, resource_name(resource))?;
    push_words(alloc, row, name)
}

/// The answer, why, the binding that decides, and from where it comes.
#[tactic(auto, using(kob_words::proofs::Appending::appending), unfolding(crate::specs::Cells::verdict_cells))]
pub fn push_verdict(
    alloc: Global,
    row: &mut Vec<Cell>,
    judge: &Judge,
    verdict: Verdict,
) -> Result<(), AllocError>
    ensures { OnOk result (row.new.items ≡ row.old.items ++ verdict_cells judge.now verdict) }
{
    push_flag(row, verdict.is_granted())?;
    push_words(alloc, row, reason_word(verdict))?;
    push_number_cell(row, deciding(verdict))?;
    push_origin(alloc, row, origin_by(judge, deciding(verdict)))
}

/// A principal or a host, or the word for all others.
pub fn party_name<'a>(all: &'a str, party: &'a Option<Text>) -> &'a str
    ensures { result.now ≡ party_name all.entry.now party.entry.now }
{
    match party {
        None => all,
        Some(party) => party.as_str(),
    }
}

/// One name, or the names that begin so and that no longer prefix and no literal takes.
#[tactic(auto, using(kob_words::proofs::Appending::appending))]
pub fn push_target(alloc: Global, row: &mut Vec<Cell>, target: &Target) -> Result<(), AllocError>
    ensures { OnOk result (row.new.items ≡ row.old.items ++ target_cells target.now) }
{
    push_words(alloc, row, resource_name(target.resource))?;
    match &target.names {
        Names::Exactly(name) => {
            push_words(alloc, row, pattern_name(PatternKind::Literal))?;
            push_words(alloc, row, name.as_str())
        }
        Names::Below(start) => {
            push_words(alloc, row, pattern_name(PatternKind::Prefixed))?;
            push_words(alloc, row, start.as_str())
        }
    }
}
