//! What people often do, and what to do in its place.

ghost use Rattle.std.specs.Prelude.{◌≡◌, option_map};
ghost use Rattle.kob_mistakes.specs.Hints.{begins_so, hint_on, hint_on_beginning};
ghost use Rattle.kob_mistakes.specs.Hints.{is_utf_16};

use crate::quotes::{Unread, unread_in};
use bstr::ByteSlice;

fn begins_so(text: &[u8], line: &[u8], beginning: &[u8]) -> bool
    ensures { result ≡ begins_so text.now line.now beginning.now }
{
    text.starts_with(beginning) || line.starts_with(beginning)
}

/// Whether a text, or a line of it, begins with a mark of UTF-16.
pub(crate) fn is_utf_16(text: &[u8], line: &[u8]) -> bool
    ensures { result ≡ is_utf_16 text.now line.now }
{
    begins_so(text, line, b"\xff\xfe") || begins_so(text, line, b"\xfe\xff")
}

/// A hint on a text that is not what is asked for, by its first bytes or those of a line.
fn hint_on_beginning(text: &[u8], line: &[u8]) -> Option<&'static str>
    ensures { option_map (λ hint. hint.now) result ≡ hint_on_beginning text.now line.now }
{
    if begins_so(text, line, b"\xef\xbb\xbf") {
        Some("the text begins with a byte order mark: write it as UTF-8 without one")
    } else if is_utf_16(text, line) {
        Some("the text is UTF-16: write it as UTF-8")
    } else if begins_so(text, line, b"Current ACLs for")
        || begins_so(text, line, b"ACLs for principal")
    {
        Some("this is a list of bindings: kob policy answers questions about it")
    } else if begins_so(text, line, b"kafka-acls") {
        Some(
            "a scene has kafka-acls options behind PRINCIPAL HOST acl; kob policy reads the command itself",
        )
    } else {
        None
    }
}

/// A hint on a line of questions with a fault.
pub(crate) fn hint_on_question(text: &[u8], line: &[u8]) -> Option<&'static str> {
    hint_on_beginning(text, line).or(match unread_in(line) {
        Some(Unread::Open) => Some("a quote does not end, or nothing stands behind a backslash"),
        Some(Unread::Replaced) => {
            Some(
                "a dollar or a backquote would be replaced by a shell: write it between single quotes",
            )
        }
        None => None,
    })
}

/// A hint on a line of so many words with a fault, if it looks like a common mistake. `text` is the
/// whole text.
pub fn hint_on(text: &[u8], line: &[u8], words: usize) -> Option<&'static str>
    ensures { option_map (λ hint. hint.now) result ≡ hint_on text.now line.now words }
{
    if let Some(hint) = hint_on_beginning(text, line) {
        return Some(hint);
    }
    if line.contains(&b'{') && words > 10 {
        Some("a blank inside a word is written %20, as in {\"total\":%2010}")
    } else if !line.contains(&b'{') && (line.contains(&b'\'') || line.contains(&b'"')) {
        Some("quotes are not removed: they become a part of the word; a blank is written %20")
    } else {
        None
    }
}
