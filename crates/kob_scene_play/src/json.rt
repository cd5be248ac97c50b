//! Answers as JSON, an object a line.

ghost use Rattle.std.specs.List.{flat_map};
ghost use Rattle.std.specs.Option.{option_map};
ghost use Rattle.std.specs.Prelude.{◌≡◌, ◌++◌, None, OnOk, Some, codes};
ghost use Rattle.kob_scene_play.specs.Json.{first_word, json_byte, json_fields, json_object};
ghost use Rattle.kob_scene_play.specs.Json.{json_string, json_text, words_byte};

use bstr::ByteSlice;
use kob_words::{hex_digit, push_number};
use std::alloc::AllocError;

/// Appends an object for each line of a text that a step of this line of a scene printed.
pub(crate) fn push_json(out: &mut Vec<u8>, line: u64, text: &[u8]) -> Result<(), AllocError>
    ensures { OnOk result (out.new.items ≡ out.old.items ++ json_text line text.now) }
{
    for printed in text.lines() {
        push_object(out, line, printed)?;
    }
    Ok(())
}

#[tactic(auto, using(kob_words::proofs::Appending::appending))]
fn push_object(out: &mut Vec<u8>, line: u64, text: &[u8]) -> Result<(), AllocError>
    ensures { OnOk result (out.new.items ≡ out.old.items ++ json_object line text.now) }
{
    out.extend_from_slice(b"{\"line\":")?;
    push_number(out, line)?;
    out.extend_from_slice(b",")?;
    match first_word(text) {
        Some((number @ [b'0'..=b'9', ..], rest)) => push_numbered(out, number, rest),
        Some(_) => push_fields(out, text),
        None => push_fields(out, text),
    }
}

#[tactic(auto, using(kob_words::proofs::Appending::appending))]
fn push_numbered(out: &mut Vec<u8>, number: &[u8], rest: &[u8]) -> Result<(), AllocError>
    ensures { OnOk result (out.new.items ≡ out.old.items ++ (codes "\"number\":" ++ number.now
        ++ codes "," ++ json_fields (first_word rest.now) rest.now)) }
{
    out.extend_from_slice(b"\"number\":")?;
    out.extend_from_slice(number)?;
    out.extend_from_slice(b",")?;
    push_fields(out, rest)
}

fn push_fields(out: &mut Vec<u8>, text: &[u8]) -> Result<(), AllocError>
    ensures { OnOk result (out.new.items
        ≡ out.old.items ++ json_fields (first_word text.now) text.now) }
{
    match first_word(text) {
        Some((kind, words)) => push_kind_and_words(out, kind, words),
        None => push_kind(out, text),
    }
}

#[tactic(auto, using(kob_words::proofs::Appending::appending))]
fn push_kind(out: &mut Vec<u8>, kind: &[u8]) -> Result<(), AllocError>
    ensures { OnOk result (out.new.items ≡ out.old.items ++ json_fields None kind.now) }
{
    out.extend_from_slice(b"\"kind\":")?;
    push_json_string(out, kind)?;
    out.extend_from_slice(b",\"words\":[]}\n")
}

#[tactic(auto, using(kob_words::proofs::Appending::appending))]
fn push_kind_and_words(out: &mut Vec<u8>, kind: &[u8], words: &[u8]) -> Result<(), AllocError>
    ensures { OnOk result (out.new.items
        ≡ out.old.items ++ json_fields (Some (kind.now, words.now)) kind.now) }
{
    out.extend_from_slice(b"\"kind\":")?;
    push_json_string(out, kind)?;
    out.extend_from_slice(b",\"words\":[\"")?;
    push_each(out, words)?;
    out.extend_from_slice(b"\"]}\n")
}

/// The part before the first space, and the part after it.
#[tactic(auto, unfolding(crate::specs::Json::first_word))]
fn first_word(text: &[u8]) -> Option<(&[u8], &[u8])>
    ensures { option_map (λ parts. (parts.0.now, parts.1.now)) result ≡ first_word text.entry.now }
{
    text.split_once_str(b" ")
}

/// Appends a text as a string of JSON.
#[tactic(auto, using(kob_words::proofs::Appending::appending))]
pub fn push_json_string(out: &mut Vec<u8>, text: &[u8]) -> Result<(), AllocError>
    ensures { OnOk result (out.new.items ≡ out.old.items ++ json_string text.now) }
{
    out.extend_from_slice(b"\"")?;
    push_escaped(out, text)?;
    out.extend_from_slice(b"\"")
}

fn push_escaped(out: &mut Vec<u8>, text: &[u8]) -> Result<(), AllocError>
    ensures { OnOk result (out.new.items ≡ out.old.items ++ flat_map json_byte text.now) }
{
    for byte in text {
        push_byte(out, *byte)?;
    }
    Ok(())
}

fn push_each(out: &mut Vec<u8>, words: &[u8]) -> Result<(), AllocError>
    ensures { OnOk result (out.new.items ≡ out.old.items ++ flat_map words_byte words.now) }
{
    for byte in words {
        if *byte == b' ' {
            out.extend_from_slice(b"\",\"")?;
        } else {
            push_byte(out, *byte)?;
        }
    }
    Ok(())
}

#[tactic(auto, using(kob_words::proofs::Appending::appending))]
fn push_byte(out: &mut Vec<u8>, byte: u8) -> Result<(), AllocError>
    ensures { OnOk result (out.new.items ≡ out.old.items ++ json_byte byte) }
{
    if byte == b'"' {
        return out.extend_from_slice(b"\\\"");
    }
    if byte == b'\\' {
        return out.extend_from_slice(b"\\\\");
    }
    if byte < b' ' {
        out.extend_from_slice(b"\\u00")?;
        return out.extend_from_slice(&[hex_digit(byte / 16), hex_digit(byte % 16)]);
    }
    out.extend_from_slice(&[byte])
}
