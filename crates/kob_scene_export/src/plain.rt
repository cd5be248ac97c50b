//! Which words can be in a shell's line as they are or in quotes, and be the value of a property.

ghost use Rattle.std.specs.List.{list_all};
ghost use Rattle.std.specs.Prelude.{◌≡◌, ◌++◌, OnOk, flat_map};
ghost use Rattle.kob_scene_export.specs.Plain.{comment_unless, is_line, is_plain};
ghost use Rattle.kob_scene_export.specs.Plain.{is_value, is_value_byte, quoted_byte, word_text};

use kob_words::push_bytes;
use std::alloc::AllocError;

/// Whether a text has only letters, digits and `.`, `_`, `-`, `:`, `/`, `@`, `,`, `=`, which bash,
/// dash and zsh read as they are.
fn is_plain(text: &[u8]) -> bool
    ensures { result ≡ is_plain text.now }
{
    text.iter().all(|byte| {
        byte.is_ascii_alphanumeric()
            || matches!(*byte, b'.' | b'_' | b'-' | b':' | b'/' | b'@' | b',' | b'=')
    })
}

/// Whether a text has no control character, so that it can be in a line.
pub fn is_line(text: &[u8]) -> bool
    ensures { result ≡ is_line text.now }
{
    text.iter().all(|byte| 32 <= *byte && *byte != 127)
}

/// Appends a word of a line as a POSIX shell reads it, in single quotes where it needs them; of a
/// line that is not written, the word with the escapes of scripts.
#[tactic(auto, using(kob_words::proofs::Appending::appending))]
pub fn push_word(out: &mut Vec<u8>, written: bool, text: &[u8]) -> Result<(), AllocError>
    ensures { OnOk result (out.new.items ≡ out.old.items ++ word_text written text.now) }
{
    if !written {
        return push_bytes(out, text);
    }
    if is_plain(text) {
        return out.extend_from_slice(text);
    }
    out.extend_from_slice(b"'")?;
    push_quoted(out, text)?;
    out.extend_from_slice(b"'")
}

#[tactic(auto, using(kob_words::proofs::Appending::appending))]
fn push_quoted(out: &mut Vec<u8>, text: &[u8]) -> Result<(), AllocError>
    ensures { OnOk result (out.new.items ≡ out.old.items ++ flat_map quoted_byte text.now) }
{
    for byte in text {
        if *byte == b'\'' {
            out.extend_from_slice(b"'\\''")?;
        } else {
            out.extend_from_slice(&[*byte])?;
        }
    }
    Ok(())
}

fn has_value_bytes(text: &[u8]) -> bool
    ensures { result ≡ list_all is_value_byte text.now }
{
    text.iter().all(|byte| {
        33 <= *byte && *byte <= 126 && *byte != b'%' && *byte != b'=' && *byte != b'\\'
    })
}

/// Whether a text can be the value of a property as it is, and is not empty.
pub fn is_value(text: &[u8]) -> bool
    ensures { result ≡ is_value text.now }
{
    !text.is_empty() && has_value_bytes(text)
}

/// Begins a comment, unless a line can be written.
pub fn push_mark(out: &mut Vec<u8>, written: bool) -> Result<(), AllocError>
    ensures { OnOk result (out.new.items ≡ out.old.items ++ comment_unless written) }
{
    if written {
        return Ok(());
    }
    out.extend_from_slice(b"# ")
}
