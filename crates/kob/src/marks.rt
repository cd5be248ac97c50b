//! The line of a mistake with a mark below the word that is wrong, and what was expected there.

ghost use Rattle.std.specs.Prelude.{◌≡◌, ◌++◌, IfOk, OnOk, drop, map, option_map, replicate, take};
ghost use Rattle.std.specs.List.{flat_map};
ghost use Rattle.kob.specs.Marks.{line_text, mark_size, mistake_text, note_of, note_text, parts_text};
ghost use Rattle.kob.specs.Marks.{most_shown, shown_byte, word_text, words_text};

use kob_mistakes::Mistake;
use kob_words::push_bytes;
use std::alloc::AllocError;

/// The line of a mistake with a mark below the word that is wrong, and what was expected there.
#[tactic(auto, using(kob_words::proofs::Appending::appending))]
pub fn push_mistake(out: &mut Vec<u8>, mistake: &Mistake<'_>) -> Result<(), AllocError>
    ensures { OnOk result (out.new.items ≡ out.old.items
        ++ mistake_text (map (λ word. word.now) mistake.now.words.items) mistake.now.place
        mistake.now.form.now mistake.now.nearest (option_map (λ hint. hint.now) mistake.now.hint)) }
{
    push_line(out, &mistake.words, mistake.place)?;
    push_note(out, "expected", mistake.form)?;
    push_note_of(
        out,
        "nearest",
        mistake.nearest.as_ref().map(|name| name.as_str()),
    )?;
    push_note_of(out, "hint", mistake.hint)
}

#[tactic(auto, using(kob_words::proofs::Appending::appending), unfolding(crate::specs::Marks::note_text))]
fn push_note(out: &mut Vec<u8>, what: &str, text: &str) -> Result<(), AllocError>
    ensures { OnOk result (out.new.items ≡ out.old.items ++ note_text what.now text.now) }
{
    out.extend_from_slice(b"  ")?;
    out.extend_from_slice(what.as_bytes())?;
    out.extend_from_slice(b": ")?;
    out.extend_from_slice(text.as_bytes())?;
    out.extend_from_slice(b"\n")
}

fn push_note_of(out: &mut Vec<u8>, what: &str, text: Option<&str>) -> Result<(), AllocError>
    ensures { OnOk result (out.new.items ≡ out.old.items
        ++ note_of what.now (option_map (λ text. text.now) text.entry)) }
{
    match text {
        Some(text) => push_note(out, what, text),
        None => Ok(()),
    }
}

/// The bytes of a word as they are in the line, blanks between quotes included; a byte that no
/// terminal shows is written `%xx`.
fn push_shown(out: &mut Vec<u8>, word: &[u8]) -> Result<(), AllocError>
    ensures { OnOk result (out.new.items ≡ out.old.items ++ flat_map shown_byte word.now) }
{
    for byte in word {
        if byte.is_ascii_graphic() || *byte == b' ' {
            out.push(*byte)?;
        } else {
            push_bytes(out, &[*byte])?;
        }
    }
    Ok(())
}

#[tactic(auto, unfolding(crate::specs::Marks::most_shown))]
fn most_shown() -> usize
    ensures { result ≡ most_shown }
{
    200
}

/// A blank, and the beginning of a word: at most 200 bytes are shown.
#[tactic(auto, using(kob_words::proofs::Appending::appending, crate::proofs::Lent::whole))]
fn push_word(out: &mut Vec<u8>, word: &[u8]) -> Result<(), AllocError>
    ensures { OnOk result (out.new.items ≡ out.old.items ++ word_text word.now) }
{
    out.extend_from_slice(b" ")?;
    push_shown(out, word.get(..most_shown()).unwrap_or(word))
}

fn push_words(out: &mut Vec<u8>, words: &[&[u8]]) -> Result<(), AllocError>
    ensures { OnOk result (out.new.items
        ≡ out.old.items ++ words_text (map (λ word. word.now) words.now)) }
{
    for word in words {
        push_word(out, word)?;
    }
    Ok(())
}

/// The words from the one that is wrong on. Returns how many bytes that one takes, or 1 if it is
/// missing.
fn push_marked(out: &mut Vec<u8>, words: &[&[u8]]) -> Result<usize, AllocError>
    ensures text { OnOk result (out.new.items
        ≡ out.old.items ++ words_text (map (λ word. word.now) words.now)) }
    ensures size { IfOk result (λ size. size ≡ mark_size (map (λ word. word.now) words.now)) }
{
    match words {
        [] => Ok(1),
        [word, rest @ ..] => {
            let begun = out.len();
            push_word(out, word)?;
            let size = out.len() - begun - 1;
            push_words(out, rest)?;
            Ok(size)
        }
    }
}

fn push_times(out: &mut Vec<u8>, byte: u8, count: usize) -> Result<(), AllocError>
    ensures { OnOk result (out.new.items ≡ out.old.items ++ replicate count byte) }
{
    for _ in 0..count {
        out.push(byte)?;
    }
    Ok(())
}

/// The words of the line, and carets below the one that is wrong.
#[tactic(auto, using(crate::proofs::Lent::lent_before, crate::proofs::Lent::lent_from, crate::proofs::Lent::lent_whole, crate::proofs::Lent::lent_none))]
fn push_line(out: &mut Vec<u8>, words: &[&[u8]], place: usize) -> Result<(), AllocError>
    ensures { OnOk result (out.new.items
        ≡ out.old.items ++ line_text (map (λ word. word.now) words.now) place) }
{
    if place < words.len() {
        let (before, behind) = words.split_at(place);
        push_parts(out, before, behind)
    } else {
        push_parts(out, words, &[])
    }
}

/// The words before the one that is wrong, and those from it on.
#[tactic(auto, using(kob_words::proofs::Appending::appending), unfolding(crate::specs::Marks::parts_text))]
fn push_parts(out: &mut Vec<u8>, before: &[&[u8]], behind: &[&[u8]]) -> Result<(), AllocError>
    ensures { OnOk result (out.new.items ≡ out.old.items
        ++ parts_text (map (λ word. word.now) before.now) (map (λ word. word.now) behind.now)) }
{
    out.extend_from_slice(b" ")?;
    let begun = out.len();
    push_words(out, before)?;
    let width = out.len() - begun;
    let size = push_marked(out, behind)?;
    out.extend_from_slice(b"\n  ")?;
    push_times(out, b' ', width)?;
    push_times(out, b'^', size)?;
    out.extend_from_slice(b"\n")
}
