//! Where a line of a list of bindings is wrong.

use crate::forms::{form_of_step, is_command};
use crate::hint::is_utf_16;
use crate::option::option_place;
use crate::worker::declared_by;
use bstr::ByteSlice;
use kob_script::{FaultKind, LineError, words_of};
use kob_words::{operation_named, pattern_named, permission_named, resource_named};
use std::alloc::{AllocError, Global};

/// The place of the word of a line of bindings that is wrong: the part of a listed binding, the
/// option of `kafka-acls`, or the first word.
pub(crate) fn binding_place(
    alloc: Global,
    line: &[u8],
    words: &[&[u8]],
    kind: FaultKind,
) -> Result<usize, AllocError> {
    let first = words.first().copied().unwrap_or(b"".as_slice());
    if first.starts_with(b"kafka-acls") {
        return match words_of(alloc, line) {
            Ok(words) => option_place(alloc, &words, 1, kind),
            Err(LineError::Memory(refused)) => Err(refused),
            Err(LineError::Fault(_)) => Ok(0),
        };
    }
    let part: &[u8] = match kind {
        FaultKind::BadPrincipal => b"principal=",
        FaultKind::BadHost => b"host=",
        _ => b"=",
    };
    let is_wrong = |word: &&[u8]| match kind {
        FaultKind::BadWord => has_unknown_value(word),
        _ => word.find(part).is_some(),
    };
    Ok(words.iter().position(|word| is_wrong(word)).unwrap_or(0))
}

/// The value of a part `NAME=VALUE` of a listed binding or of a heading; a whole word without `=`.
pub(crate) fn value_in(word: &[u8]) -> &[u8] {
    let is_end = |byte: u8| byte == b',' || byte == b')' || byte == b'`' || byte == b':';
    let value = match word.iter().position(|byte| *byte == b'=') {
        Some(at) => word.get(at + 1..).unwrap_or(word),
        None => return word,
    };
    let end = value
        .iter()
        .position(|byte| is_end(*byte))
        .unwrap_or(value.len());
    value.get(..end).unwrap_or(value)
}

/// Whether a part `NAME=VALUE` has an unknown word for a value.
fn has_unknown_value(word: &[u8]) -> bool {
    let name = word
        .split(|byte| *byte == b'=')
        .next()
        .unwrap_or(b"".as_slice());
    let value = value_in(word);
    // (lists write DESCRIBE_CONFIGS for DescribeConfigs)
    let is_listed = value.contains(&b'_');
    if name == b"operation".as_slice() {
        !is_listed && operation_named(value).is_none()
    } else if name == b"permissionType".as_slice() {
        permission_named(value).is_none()
    } else if name.ends_with(b"resourceType") {
        !is_listed && resource_named(value).is_none()
    } else {
        name == b"patternType".as_slice() && pattern_named(value).is_none()
    }
}

/// A hint on a line that is not one of a list, but one of a scene, or on a list that can't be read as
/// UTF-8, if it has a mark of UTF-16, which is read elsewhere.
pub(crate) fn hint_on_list(text: &[u8], words: &[&[u8]]) -> Option<&'static str> {
    // (a declaration, a step of a worker, or a request other than those that lists may have)
    let is_of_scene = match words {
        [who, _, command, ..] if who.contains(&b':') => {
            is_command(command)
                && *command != b"create-acl".as_slice()
                && *command != b"acl".as_slice()
        }
        [first, second, ..] => declared_by(first).is_some() || form_of_step(second).is_some(),
        _ => false,
    };
    if is_of_scene {
        Some("this looks like a scene: kob play plays it")
    } else if is_utf_16(text, b"") {
        Some("the text is UTF-16 with an odd number of bytes, or with an unpaired surrogate")
    } else {
        None
    }
}
