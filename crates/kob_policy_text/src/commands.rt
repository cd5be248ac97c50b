//! The commands that lead from one policy to another.

ghost use Rattle.std.specs.Prelude.{◌≡◌, ◌==◌, ◌++◌, IfOk, OnOk, flat_map, length, not};
ghost use Rattle.kob_authorizer.specs.Decide.{Contents};
ghost use Rattle.kob_policy_text.specs.Policy.{contents_of};
ghost use Rattle.kob_policy_text.specs.Steps.{HaveSameSettings, KeepAnswers, exactly, is_among};
ghost use Rattle.kob_policy_text.specs.Steps.{step_on, steps};

use crate::judge::Judge;
use kob_authorizer::Authorizer;
use kob_names::{Binding, BindingFilter, FilterPattern, PatternKind, Permission, PlainValue};
use std::alloc::{AllocError, Global};

/// A command on one binding.
#[derive(Drop)]
pub enum Step {
    Add(Binding),
    Remove(Binding),
}

/// Commands keep the answers: after each, whatever both policies grant is granted, and whatever
/// both refuse is refused. All of them lead to the bindings of the second.
#[tactic(auto, using(crate::proofs::Moving::keep))]
pub fn steps_keep_answers()
    ensures { (before after : Contents) → HaveSameSettings before after
        → KeepAnswers before after }
{
    // The contract is the law.
}

/// A filter that takes equal bindings alone.
fn exactly(alloc: Global, binding: &Binding) -> Result<BindingFilter, AllocError>
    ensures { IfOk result (λ filter. filter ≡ exactly binding.now) }
{
    let parts = binding.parts();
    Ok(BindingFilter {
        resource: Some(parts.resource),
        name: Some(parts.pattern.name.copy(alloc)?),
        pattern: match parts.pattern.kind {
            PatternKind::Literal => FilterPattern::Literal,
            PatternKind::Prefixed => FilterPattern::Prefixed,
        },
        principal: Some(parts.principal.copy(alloc)?),
        host: Some(parts.host.copy(alloc)?),
        operation: Some(parts.operation),
        permission: Some(parts.permission),
    })
}

/// The entries with an equal binding, by a look-up of its name.
#[tactic(auto, using(crate::proofs::Doing::found_among))]
pub fn equals_of(
    alloc: Global,
    rules: &Authorizer,
    binding: &Binding,
) -> Result<Vec<(u64, Binding)>, AllocError>
    ensures { IfOk result (λ found. is_among rules.now.contents.entries binding.now
        ≡ not (length found.items == 0)) }
{
    let filter = exactly(alloc, binding)?;
    let found = rules.describe(alloc, &filter)?;
    drop(filter);
    Ok(found)
}

/// The commands on the entries that the others lack.
#[tactic(auto, unfolding(crate::specs::Steps::step_on))]
fn push_steps(
    alloc: Global,
    found: &mut Vec<Step>,
    adds: bool,
    permission: Permission,
    others: &Authorizer,
    entries: &[(u64, Binding)],
) -> Result<(), AllocError>
    ensures { OnOk result (found.new.items ≡ found.old.items
        ++ flat_map (step_on adds permission others.now.contents.entries) entries.now) }
{
    for entry in entries {
        if entry.1.parts().permission != permission {
            continue;
        }
        if equals_of(alloc, others, &entry.1)?.is_empty() {
            let binding = entry.1.copy(alloc)?;
            if adds {
                found.push(Step::Add(binding))?;
            } else {
                found.push(Step::Remove(binding))?;
            }
        }
    }
    Ok(())
}

/// The commands that lead from the bindings of one policy to those of another, in their order. The
/// error is out of memory.
#[tactic(auto, using(kob_words::proofs::Appending::appending), unfolding(crate::specs::Steps::additions, crate::specs::Steps::removals))]
pub fn steps(alloc: Global, before: &Judge, after: &Judge) -> Result<Vec<Step>, AllocError>
    ensures { IfOk result (λ found. found.items
        ≡ steps (contents_of before.now).entries (contents_of after.now).entries) }
{
    let (old, new) = (before.authorizer(), after.authorizer());
    let (removed, added) = (old.entries(), new.entries());
    let mut found = Vec::new(alloc);
    push_steps(alloc, &mut found, true, Permission::Deny, old, added)?;
    push_steps(alloc, &mut found, true, Permission::Allow, old, added)?;
    push_steps(alloc, &mut found, false, Permission::Allow, new, removed)?;
    push_steps(alloc, &mut found, false, Permission::Deny, new, removed)?;
    Ok(found)
}
