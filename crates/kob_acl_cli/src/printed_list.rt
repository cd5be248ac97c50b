//! How lists of bindings are printed.

ghost use Rattle.std.specs.Prelude.{◌≡◌, ◌++◌, IfOk, OnOk, string_bytes};
ghost use Rattle.std.specs.Str.{IsAscii};
ghost use Rattle.kob_acl_cli.specs.Lines.{binding_line, list_text};

use kob_names::Binding;
use kob_words::print_binding;
use std::alloc::{AllocError, Global};

/// One line per binding, each with a line feed: `binding SERIAL PERMISSION PRINCIPAL HOST OPERATION
/// RESOURCE PATTERN NAME`. Bytes of names outside 0x21 to 0x7e, and each `%` and `=`, are printed
/// as `%` and two lower-case hexadecimal digits. The error is out of memory.
pub fn print_list(alloc: Global, bindings: &[(u64, Binding)]) -> Result<String, AllocError>
    ensures { IfOk result (λ text. string_bytes text ≡ list_text bindings.now) }
{
    let mut out = Vec::new(alloc);
    for (serial, binding) in bindings {
        push_line(&mut out, *serial, binding)?;
    }
    Ok(String::from_utf8(out).unwrap())
}

#[tactic(auto, using(kob_words::proofs::Appending::appending))]
fn push_line(out: &mut Vec<u8>, serial: u64, binding: &Binding) -> Result<(), AllocError>
    ensures text { OnOk result
        (out.new.items ≡ out.old.items ++ binding_line (serial, binding.now)) }
    ensures ascii { OnOk result (IsAscii (binding_line (serial, binding.now))) }
{
    print_binding(out, serial, binding)?;
    out.push(b'\n')?;
    Ok(())
}
