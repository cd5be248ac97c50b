//! Names as a list has them, between double quotes where a shell would cut or change them.

ghost use Rattle.std.specs.Prelude.{◌≡◌, ◌++◌, OnOk, flat_map};
ghost use Rattle.std.specs.List.{list_all};
ghost use Rattle.kob_policy_text.specs.Quoted.{binding_text, grant_text, has_meaning, is_bare};
ghost use Rattle.kob_policy_text.specs.Quoted.{is_shown, name_text, pattern_text, quoted_byte};

use kob_names::{Binding, Draft};
use kob_words::{
    operation_name, pattern_name, permission_name, push_bytes, push_number, resource_name,
};
use std::alloc::AllocError;

fn has_meaning(byte: u8) -> bool
    ensures { result ≡ has_meaning byte }
{
    byte == b'"' || byte == b'$' || byte == b'\\' || byte == b'`'
}

fn is_shown(byte: u8) -> bool
    ensures { result ≡ is_shown byte }
{
    32 <= byte && byte <= 126 && byte != b'%'
}

fn is_bare_name(name: &[u8]) -> bool
    ensures { result ≡ list_all is_bare name.now }
{
    name.iter().all(|byte| is_shown(*byte)
        && *byte != b' '
        && *byte != b'\''
        && !has_meaning(*byte))
}

fn push_quoted_bytes(out: &mut Vec<u8>, name: &[u8]) -> Result<(), AllocError>
    ensures { OnOk result (out.new.items ≡ out.old.items ++ flat_map quoted_byte name.now) }
{
    for byte in name {
        if has_meaning(*byte) {
            out.extend_from_slice(&[b'\\', *byte])?;
        } else if is_shown(*byte) {
            out.extend_from_slice(&[*byte])?;
        } else {
            push_bytes(out, &[*byte])?;
        }
    }
    Ok(())
}

/// Prints a name of a list: as it is if a shell leaves it so, else between double quotes. A byte
/// that is no printed ASCII, and a percent sign, are `%` and two hexadecimal digits.
#[tactic(auto, using(kob_words::proofs::Appending::appending), unfolding(crate::specs::Quoted::name_text))]
pub fn push_name(out: &mut Vec<u8>, name: &str) -> Result<(), AllocError>
    ensures { OnOk result (out.new.items ≡ out.old.items ++ name_text name.now) }
{
    if is_bare_name(name.as_bytes()) {
        return out.extend_from_slice(name.as_bytes());
    }
    out.extend_from_slice(b"\"")?;
    push_quoted_bytes(out, name.as_bytes())?;
    out.extend_from_slice(b"\"")
}

fn push_grant(out: &mut Vec<u8>, binding: &Draft) -> Result<(), AllocError>
    ensures { OnOk result (out.new.items ≡ out.old.items ++ grant_text binding.now) }
{
    out.extend_from_slice(permission_name(binding.permission).as_bytes())?;
    out.extend_from_slice(b" ")?;
    push_name(out, binding.principal.as_str())?;
    out.extend_from_slice(b" ")?;
    push_name(out, binding.host.as_str())?;
    out.extend_from_slice(b" ")?;
    out.extend_from_slice(operation_name(binding.operation).as_bytes())
}

fn push_pattern(out: &mut Vec<u8>, binding: &Draft) -> Result<(), AllocError>
    ensures { OnOk result (out.new.items ≡ out.old.items ++ pattern_text binding.now) }
{
    out.extend_from_slice(resource_name(binding.resource).as_bytes())?;
    out.extend_from_slice(b" ")?;
    out.extend_from_slice(pattern_name(binding.pattern.kind).as_bytes())?;
    out.extend_from_slice(b" ")?;
    push_name(out, binding.pattern.name.as_str())
}

/// A binding with its serial, without a line feed.
pub fn push_binding(out: &mut Vec<u8>, serial: u64, binding: &Binding) -> Result<(), AllocError>
    ensures { OnOk result (out.new.items ≡ out.old.items ++ binding_text serial binding.now) }
{
    let parts = binding.parts();
    out.extend_from_slice(b"binding ")?;
    push_number(out, serial)?;
    out.extend_from_slice(b" ")?;
    push_grant(out, parts)?;
    out.extend_from_slice(b" ")?;
    push_pattern(out, parts)
}
