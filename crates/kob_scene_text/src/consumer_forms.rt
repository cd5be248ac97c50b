//! The forms of lines that declare a consumer.

ghost use Rattle.std.specs.Prelude.{◌≡◌};
ghost use Rattle.kob_scene_text.specs.ConsumerForms.{consumer_form, form_by};

use crate::forms::{HOST, Keyword, NAME, OR_END, PRINCIPAL, Part, Slot, TEXT};
use kob_script::Word;

const GROUP: Part = Part::One(Slot::Keyword(Keyword::Group));

const MAX: Part = Part::One(Slot::Keyword(Keyword::Max));

const NUMBER: Part = Part::One(Slot::Max);

const START: Part = Part::After(Keyword::Start, Slot::Start);

const COMMITS: Part = Part::After(Keyword::Commits, Slot::Keyword(Keyword::Before));

const NO: Part = Part::After(Keyword::No, Slot::Keyword(Keyword::Dedup));

const READS: Part = Part::One(Slot::Keyword(Keyword::Reads));

const EACH: Part = Part::Each(Slot::Partition);

/// The words behind `consumer`, of which the eighth, or the one behind `start` and its word, says
/// which variant there may be.
pub(crate) fn consumer_form(words: &[Word<'_>]) -> &'static [Part]
    ensures { result.now ≡ consumer_form words.now }
{
    match words {
        [_, _, _, _, _, _, _, keyword, _, variant, ..]
            if keyword.decoded() == b"start".as_slice() => { form_by(variant.decoded()) }
        [_, _, _, _, _, _, _, variant, ..] => form_by(variant.decoded()),
        _ => form_by(b"commits"),
    }
}

/// `[start latest]`, then `[no dedup]` or `[commits before]`, and `[reads TOPIC:PARTITION ..]` at its
/// end.
fn form_by(variant: &[u8]) -> &'static [Part]
    ensures { result.now ≡ form_by variant.now }
{
    if variant == b"no".as_slice() {
        &[
            NAME, PRINCIPAL, HOST, GROUP, TEXT, MAX, NUMBER, START, NO, OR_END, READS, EACH,
        ]
    } else {
        &[
            NAME, PRINCIPAL, HOST, GROUP, TEXT, MAX, NUMBER, START, COMMITS, OR_END, READS, EACH,
        ]
    }
}
