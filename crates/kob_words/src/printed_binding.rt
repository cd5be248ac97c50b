//! How bindings are printed.

ghost use Rattle.std.specs.Prelude.{◌≡◌, ◌++◌, OnErr, OnOk};
ghost use Rattle.std.specs.Str.{IsAscii};
ghost use Rattle.kob_words.specs.Words.{IsKept, grant_text, target_text, binding_text};

use crate::operation::operation_name;
use crate::pattern::pattern_name;
use crate::permission::permission_name;
use crate::printed_text::{push_bytes, push_number, whole_or_nothing};
use crate::resource::resource_name;
use kob_names::{Binding, Draft};
use std::alloc::AllocError;

/// Prints a binding with its serial, as `binding SERIAL PERMISSION PRINCIPAL HOST OPERATION
/// RESOURCE PATTERN NAME`, without a line feed. On an error `out` is as it was.
pub fn print_binding(out: &mut Vec<u8>, serial: u64, binding: &Binding) -> Result<(), AllocError>
    ensures text { OnOk result (out.new.items ≡ out.old.items ++ binding_text serial binding.now) }
    ensures ascii { OnOk result (IsAscii (binding_text serial binding.now)) }
    ensures same { OnErr result (out.new.items ≡ out.old.items) }
{
    let start = out.len();
    let printed = push_binding(out, serial, binding);
    whole_or_nothing(out, start, printed)
}

#[tactic(auto, using(crate::proofs::Appending::kept))]
fn push_binding(out: &mut Vec<u8>, serial: u64, binding: &Binding) -> Result<(), AllocError>
    ensures text { OnOk result (out.new.items ≡ out.old.items ++ binding_text serial binding.now) }
    ensures ascii { OnOk result (IsAscii (binding_text serial binding.now)) }
    ensures kept { OnErr result (IsKept out.old.items out.new.items) }
{
    let parts = binding.parts();
    out.extend_from_slice(b"binding ")?;
    push_number(out, serial)?;
    out.push(b' ')?;
    push_grant(out, parts)?;
    out.push(b' ')?;
    push_target(out, parts)
}

#[tactic(auto, using(crate::proofs::Appending::kept))]
fn push_grant(out: &mut Vec<u8>, binding: &Draft) -> Result<(), AllocError>
    ensures text { OnOk result (out.new.items ≡ out.old.items ++ grant_text binding.now) }
    ensures ascii { OnOk result (IsAscii (grant_text binding.now)) }
    ensures kept { OnErr result (IsKept out.old.items out.new.items) }
{
    out.extend_from_slice(permission_name(binding.permission).as_bytes())?;
    out.push(b' ')?;
    push_bytes(out, binding.principal.as_str().as_bytes())?;
    out.push(b' ')?;
    push_bytes(out, binding.host.as_str().as_bytes())?;
    out.push(b' ')?;
    out.extend_from_slice(operation_name(binding.operation).as_bytes())
}

#[tactic(auto, using(crate::proofs::Appending::kept))]
fn push_target(out: &mut Vec<u8>, binding: &Draft) -> Result<(), AllocError>
    ensures text { OnOk result (out.new.items ≡ out.old.items ++ target_text binding.now) }
    ensures ascii { OnOk result (IsAscii (target_text binding.now)) }
    ensures kept { OnErr result (IsKept out.old.items out.new.items) }
{
    out.extend_from_slice(resource_name(binding.resource).as_bytes())?;
    out.push(b' ')?;
    out.extend_from_slice(pattern_name(binding.pattern.kind).as_bytes())?;
    out.push(b' ')?;
    push_bytes(out, binding.pattern.name.as_str().as_bytes())
}
