//! The forms of lines of a service: what each word behind the first one writes.

ghost use Rattle.std.specs.Prelude.{◌≡◌};
ghost use Rattle.kob_scene_text.specs.ServiceForms.{service_form, service_form_by};

use crate::forms::{HOST, Keyword, LATE, NAME, PRINCIPAL, Part, Slot};
use kob_script::Word;

const PARTITIONS: Part = Part::One(Slot::Keyword(Keyword::Partitions));

const COUNT: Part = Part::One(Slot::Partitions);

const RETRIES: Part = Part::One(Slot::Keyword(Keyword::Retries));

const NEW: Part = Part::One(Slot::Keyword(Keyword::New));

const DELETES: Part = Part::One(Slot::Keyword(Keyword::Deletes));

const FIRST: Part = Part::One(Slot::Keyword(Keyword::First));

const NOT: Part = Part::One(Slot::Keyword(Keyword::Not));

const IDEMPOTENT: Part = Part::One(Slot::Keyword(Keyword::Idempotent));

const SEPARATE: Part = Part::One(Slot::Keyword(Keyword::Separate));

const VISIBLE: Part = Part::One(Slot::Keyword(Keyword::Visible));

const BY: Part = Part::After(Keyword::By, Slot::Column);

const REPLACED: Part = Part::After(Keyword::Replacement, Slot::Replacement);

const PLACED: Part = Part::After(Keyword::Placement, Slot::Placement);

/// The words behind `service`, of which the sixth says whether it is a variant.
pub(crate) fn service_form(words: &[Word<'_>]) -> &'static [Part]
    ensures { result.now ≡ service_form words.now }
{
    match words {
        [_, _, _, _, _, variant, ..] => service_form_by(variant.decoded()),
        _ => service_form_by(b"by"),
    }
}

fn service_form_by(variant: &[u8]) -> &'static [Part]
    ensures { result.now ≡ service_form_by variant.now }
{
    if variant == b"retries".as_slice() {
        &[
            NAME, PRINCIPAL, HOST, PARTITIONS, COUNT, RETRIES, NEW, BY, REPLACED, PLACED,
        ]
    } else if variant == b"deletes".as_slice() {
        &[
            NAME, PRINCIPAL, HOST, PARTITIONS, COUNT, DELETES, FIRST, BY, REPLACED, PLACED,
        ]
    } else if variant == b"not".as_slice() {
        &[
            NAME, PRINCIPAL, HOST, PARTITIONS, COUNT, NOT, IDEMPOTENT, BY, REPLACED, PLACED,
        ]
    } else if variant == b"separate".as_slice() {
        &[
            NAME, PRINCIPAL, HOST, PARTITIONS, COUNT, SEPARATE, BY, REPLACED, PLACED,
        ]
    } else if variant == b"visible".as_slice() {
        &[
            NAME, PRINCIPAL, HOST, PARTITIONS, COUNT, VISIBLE, LATE, BY, REPLACED, PLACED,
        ]
    } else {
        &[
            NAME, PRINCIPAL, HOST, PARTITIONS, COUNT, BY, REPLACED, PLACED,
        ]
    }
}
