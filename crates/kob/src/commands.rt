//! The commands of `kafka-acls` that lead from one list to another.

ghost use Rattle.std.specs.Prelude.{◌≡◌, ◌++◌, OnOk, flat_map};
ghost use Rattle.kob.specs.Commands.{commands_text, step_line};

use kob_policy_text::{Judge, Step, steps};
use kob_scene_export::{export_binding, export_removal};
use std::alloc::{AllocError, Global};

fn push_steps(out: &mut Vec<u8>, found: &[Step]) -> Result<(), AllocError>
    ensures { OnOk result (out.new.items ≡ out.old.items ++ flat_map step_line found.now) }
{
    for step in found {
        match step {
            Step::Add(binding) => export_binding(out, binding.parts())?,
            Step::Remove(binding) => export_removal(out, binding.parts())?,
        }
    }
    Ok(())
}

/// Appends the commands, a line each, in an order in which no right that both lists grant is ever
/// missing and none is granted that neither does. The error is out of memory; `out` has then grown
/// by a part of them.
pub fn push_commands(
    alloc: Global,
    out: &mut Vec<u8>,
    before: &Judge,
    after: &Judge,
) -> Result<(), AllocError>
    ensures { OnOk result (out.new.items ≡ out.old.items ++ commands_text before.now after.now) }
{
    let found = steps(alloc, before, after)?;
    push_steps(out, &found)
}
