//! Bindings, as `kafka-acls.sh` adds them.

ghost use Rattle.std.specs.Prelude.{◌≡◌, ◌++◌, OnOk};
ghost use Rattle.kob_scene_export.specs.Bindings.{add_text, binding_line, command_line, grant_text};
ghost use Rattle.kob_scene_export.specs.Bindings.{host_text, is_taken, is_written};
ghost use Rattle.kob_scene_export.specs.Bindings.{named_text, pattern_text, principal_option};
ghost use Rattle.kob_scene_export.specs.Bindings.{refused_note, removal_line, target_text};

use crate::plain::{is_line, push_mark, push_word};
use kob_names::{Draft, Operation, Pattern, PatternKind, Permission, ResourceKind};
use kob_words::operation_name;
use std::alloc::AllocError;

/// Appends the line `kafka-acls.sh --add ..` of a binding, with single quotes where a POSIX shell
/// needs them. The words after the first are those of the command `acl` of a script that creates
/// the same binding. The line is a comment if a word of it has a control character, for a prefixed
/// pattern of the cluster, which `kafka-acls.sh` cannot write, and for an operation that it refuses
/// on that kind of resource. A comment above a line for IdempotentWrite says what differs in Kafka.
/// The error is out of memory; `out` then ends with a part of the text.
#[tactic(auto, using(kob_words::proofs::Appending::appending))]
pub fn export_binding(out: &mut Vec<u8>, binding: &Draft) -> Result<(), AllocError>
    ensures { OnOk result (out.new.items ≡ out.old.items ++ binding_line binding.now) }
{
    if binding.operation == Operation::IdempotentWrite {
        out.extend_from_slice(
            b"# Kafka 2.8 and later accept Write on any topic instead (KIP-679).\n",
        )?;
    }
    push_command(out, add_text().as_bytes(), binding)
}

/// Appends the line `kafka-acls.sh --remove --force ..` that removes a binding and no other. It is
/// a comment where that of [`export_binding`] is. The error is out of memory; `out` then ends with
/// a part of the text.
pub fn export_removal(out: &mut Vec<u8>, binding: &Draft) -> Result<(), AllocError>
    ensures { OnOk result (out.new.items ≡ out.old.items ++ removal_line binding.now) }
{
    push_command(out, b"kafka-acls.sh --remove --force", binding)
}

/// A command with its options, and above it why it is a comment.
#[tactic(auto, using(kob_words::proofs::Appending::appending), unfolding(crate::specs::Bindings::command_line))]
fn push_command(out: &mut Vec<u8>, command: &[u8], binding: &Draft) -> Result<(), AllocError>
    ensures { OnOk result (out.new.items ≡ out.old.items ++ command_line command.now binding.now) }
{
    let is_written = is_written(binding);
    out.extend_from_slice(refused_note(is_taken(binding.resource, binding.operation)).as_bytes())?;
    push_mark(out, is_written)?;
    out.extend_from_slice(command)?;
    push_grant(out, is_written, binding)?;
    push_target(out, is_written, binding.resource, &binding.pattern)?;
    out.extend_from_slice(b"\n")
}

fn refused_note(is_taken: bool) -> &'static str
    ensures { result.now ≡ refused_note is_taken }
{
    if is_taken {
        ""
    } else {
        "# kafka-acls.sh refuses this operation on this kind of resource.\n"
    }
}

#[tactic(auto, unfolding(crate::specs::Bindings::add_text))]
fn add_text() -> &'static str
    ensures { result.now ≡ add_text }
{
    "kafka-acls.sh --add"
}

fn is_written(binding: &Draft) -> bool
    ensures { result ≡ is_written binding.now }
{
    is_line(binding.principal.as_str().as_bytes())
        && is_line(binding.host.as_str().as_bytes())
        && is_line(binding.pattern.name.as_str().as_bytes())
        && (binding.resource != ResourceKind::Cluster
            || binding.pattern.kind == PatternKind::Literal)
        && is_taken(binding.resource, binding.operation)
}

/// Whether `kafka-acls.sh` takes an operation on a kind of resource: Kafka's `AclEntry` has the
/// list.
fn is_taken(resource: ResourceKind, operation: Operation) -> bool
    ensures { result ≡ is_taken resource operation }
{
    match resource {
        ResourceKind::Topic => !matches!(
            operation,
            Operation::ClusterAction | Operation::IdempotentWrite
        ),
        ResourceKind::Group => matches!(
            operation,
            Operation::Read | Operation::Describe | Operation::Delete | Operation::All
        ),
        ResourceKind::Cluster => !matches!(
            operation,
            Operation::Read | Operation::Write | Operation::Delete
        ),
        ResourceKind::TransactionalId => matches!(
            operation,
            Operation::Write | Operation::Describe | Operation::All
        ),
    }
}

#[tactic(auto, using(kob_words::proofs::Appending::appending))]
fn push_grant(out: &mut Vec<u8>, written: bool, binding: &Draft) -> Result<(), AllocError>
    ensures { OnOk result (out.new.items ≡ out.old.items ++ grant_text written binding.now) }
{
    out.extend_from_slice(principal_option(binding.permission).as_bytes())?;
    push_word(out, written, binding.principal.as_str().as_bytes())?;
    push_host(
        out,
        written,
        binding.permission,
        binding.host.as_str().as_bytes(),
    )?;
    out.extend_from_slice(b" --operation=")?;
    out.extend_from_slice(operation_name(binding.operation).as_bytes())
}

fn principal_option(permission: Permission) -> &'static str
    ensures { result.now ≡ principal_option permission }
{
    match permission {
        Permission::Allow => " --allow-principal=",
        Permission::Deny => " --deny-principal=",
    }
}

/// Any host is what an option names by default.
#[tactic(auto, using(kob_words::proofs::Appending::appending))]
fn push_host(
    out: &mut Vec<u8>,
    written: bool,
    permission: Permission,
    host: &[u8],
) -> Result<(), AllocError>
    ensures { OnOk result (out.new.items
        ≡ out.old.items ++ host_text written permission host.now) }
{
    if host == b"*".as_slice() {
        return Ok(());
    }
    match permission {
        Permission::Allow => out.extend_from_slice(b" --allow-host=")?,
        Permission::Deny => out.extend_from_slice(b" --deny-host=")?,
    }
    push_word(out, written, host)
}

fn push_target(
    out: &mut Vec<u8>,
    written: bool,
    resource: ResourceKind,
    pattern: &Pattern,
) -> Result<(), AllocError>
    ensures { OnOk result (out.new.items
        ≡ out.old.items ++ target_text written resource pattern.now) }
{
    match resource {
        ResourceKind::Topic => push_named(out, written, b" --topic=", pattern),
        ResourceKind::Group => push_named(out, written, b" --group=", pattern),
        ResourceKind::TransactionalId => {
            push_named(out, written, b" --transactional-id=", pattern)
        }
        ResourceKind::Cluster => out.extend_from_slice(b" --cluster"),
    }
}

#[tactic(auto, using(kob_words::proofs::Appending::appending))]
fn push_named(
    out: &mut Vec<u8>,
    written: bool,
    option: &[u8],
    pattern: &Pattern,
) -> Result<(), AllocError>
    ensures { OnOk result (out.new.items
        ≡ out.old.items ++ named_text written option.now pattern.now) }
{
    out.extend_from_slice(option)?;
    push_word(out, written, pattern.name.as_str().as_bytes())?;
    out.extend_from_slice(pattern_text(pattern.kind).as_bytes())
}

fn pattern_text(pattern: PatternKind) -> &'static str
    ensures { result.now ≡ pattern_text pattern }
{
    match pattern {
        PatternKind::Literal => "",
        PatternKind::Prefixed => " --resource-pattern-type=prefixed",
    }
}
