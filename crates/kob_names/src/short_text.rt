//! Texts of a few bytes, stored inline.

ghost use Rattle.std.specs.Prelude.{◌≡◌, ◌≤◌, SomeIff, length};
ghost use Rattle.kob_names.specs.TextRules.{short_text_limit};

use crate::limits::SHORT_TEXT_LIMIT;
use std::marker::Model;
use std::str::from_utf8_unchecked;

/// A text of at most 30 bytes, stored inline in 31 bytes.
#[derive(Drop)]
pub(crate) struct ShortText {
    bytes: [u8; SHORT_TEXT_LIMIT],
    used: u8,
}

impl Model for ShortText {
    ghost use Rattle.std.specs.Prelude.{List, ℕ, ◌≤◌, take, IsUtf8};
    ghost use Rattle.kob_names.specs.TextRules.{short_text_limit};

    ghost Value = { List ℕ };

    ghost view = { λ text. take text.used text.bytes };

    ghost invariant = { λ text.
        (text.used ≤ short_text_limit) × IsUtf8 (take text.used text.bytes) };
}

impl ShortText {
    /// A copy of `text`, if it has at most 30 bytes. Does not allocate.
    pub(crate) fn new(text: &str) -> Option<ShortText>
        ensures { SomeIff result (length text.now ≤ short_text_limit) text.now }
    {
        let used = text.len();
        if used > SHORT_TEXT_LIMIT {
            return None;
        }
        let mut bytes = [0; SHORT_TEXT_LIMIT];
        bytes[..used].copy_from_slice(text.as_bytes());
        Some(ShortText {
            bytes,
            used: used as u8,
        })
    }

    /// The text. Does not allocate.
    pub(crate) fn as_str(&self) -> &str
        ensures { result.now ≡ self.now }
    {
        unsafe { from_utf8_unchecked(&self.bytes[..self.used as usize]) }
    }
}
