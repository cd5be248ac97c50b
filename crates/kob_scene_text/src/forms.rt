//! The forms of lines: what each word behind the first one writes.

ghost use Rattle.std.specs.Prelude.{◌≡◌, bytes_eq};
ghost use Rattle.kob_scene_text.specs.Places.{expect_form, expect_form_by, keyword_text};

use kob_script::Word;

/// What a word writes.
#[derive(Clone, Copy, Debug, PartialEq, Eq)]
pub(crate) enum Slot {
    /// The name of a worker that is declared now.
    NewName,
    /// The name of a service that a line before declares.
    ServiceName,
    /// The name of a consumer that a line before declares.
    ConsumerName,
    /// A text in UTF-8.
    Text,
    Principal,
    Host,
    /// The name of a service that a line before declares, and of which the laws speak.
    LawService,
    /// The name of a consumer that a line before declares, and of which the laws speak.
    LawConsumer,
    /// A number from 1 on.
    Max,
    /// `latest`
    Start,
    /// From 1 to 1,000 partitions.
    Partitions,
    /// The column that rows are routed by.
    Column,
    Replacement,
    Placement,
    /// `TOPIC:PARTITION`
    Partition,
    /// A UUID.
    Id,
    /// `on` or `off`.
    Switch,
    /// `lose-request` or `lose-reply`.
    Loss,
    Keyword(Keyword),
}

/// A word that stands between others.
#[derive(Clone, Copy, Debug, PartialEq, Eq)]
pub(crate) enum Keyword {
    Partitions,
    Retries,
    New,
    Deletes,
    First,
    Not,
    Idempotent,
    Separate,
    Visible,
    Late,
    Crash,
    By,
    Replacement,
    Placement,
    Group,
    Max,
    Start,
    Commits,
    Before,
    No,
    Dedup,
    Reads,
    Delivered,
    All,
    Lost,
    Order,
}

/// The words at a place of a form.
#[derive(Clone, Copy, Debug, PartialEq, Eq)]
pub(crate) enum Part {
    One(Slot),
    /// A keyword and the word behind it, or neither.
    After(Keyword, Slot),
    /// The line may end here.
    OrEnd,
    /// All words that are left.
    Each(Slot),
}

pub(crate) const NAME: Part = Part::One(Slot::NewName);

pub(crate) const PRINCIPAL: Part = Part::One(Slot::Principal);

pub(crate) const HOST: Part = Part::One(Slot::Host);

pub(crate) const TEXT: Part = Part::One(Slot::Text);

pub(crate) const OR_END: Part = Part::OrEnd;

pub(crate) const LATE: Part = Part::One(Slot::Keyword(Keyword::Late));

/// Whether a word is this one.
pub(crate) fn is_keyword(keyword: Keyword, word: &Word<'_>) -> bool
    ensures { result ≡ bytes_eq word.now.decoded (keyword_text keyword) }
{
    let text = word.decoded();
    match keyword {
        Keyword::Partitions => text == b"partitions".as_slice(),
        Keyword::Retries => text == b"retries".as_slice(),
        Keyword::New => text == b"new".as_slice(),
        Keyword::Deletes => text == b"deletes".as_slice(),
        Keyword::First => text == b"first".as_slice(),
        Keyword::Not => text == b"not".as_slice(),
        Keyword::Idempotent => text == b"idempotent".as_slice(),
        Keyword::Separate => text == b"separate".as_slice(),
        Keyword::Visible => text == b"visible".as_slice(),
        Keyword::Late => text == b"late".as_slice(),
        Keyword::Crash => text == b"crash".as_slice(),
        Keyword::By => text == b"by".as_slice(),
        Keyword::Replacement => text == b"replacement".as_slice(),
        Keyword::Placement => text == b"placement".as_slice(),
        Keyword::Group => text == b"group".as_slice(),
        Keyword::Max => text == b"max".as_slice(),
        Keyword::Start => text == b"start".as_slice(),
        Keyword::Commits => text == b"commits".as_slice(),
        Keyword::Before => text == b"before".as_slice(),
        Keyword::No => text == b"no".as_slice(),
        Keyword::Dedup => text == b"dedup".as_slice(),
        Keyword::Reads => text == b"reads".as_slice(),
        Keyword::Delivered => text == b"delivered".as_slice(),
        Keyword::All => text == b"all".as_slice(),
        Keyword::Lost => text == b"lost".as_slice(),
        Keyword::Order => text == b"order".as_slice(),
    }
}

/// The words behind `expect`, of which the third says which others there are.
pub(crate) fn expect_form(words: &[Word<'_>]) -> &'static [Part]
    ensures { result.now ≡ expect_form words.now }
{
    match words {
        [_, _, what, ..] => expect_form_by(what.decoded()),
        _ => expect_form_by(b"order"),
    }
}

fn expect_form_by(what: &[u8]) -> &'static [Part]
    ensures { result.now ≡ expect_form_by what.now }
{
    if what == b"lost".as_slice() {
        &[
            Part::One(Slot::ServiceName),
            Part::One(Slot::ConsumerName),
            Part::One(Slot::Keyword(Keyword::Lost)),
            Part::One(Slot::Id),
        ]
    } else if what == b"delivered".as_slice() {
        &[
            Part::One(Slot::ServiceName),
            Part::One(Slot::ConsumerName),
            Part::One(Slot::Keyword(Keyword::Delivered)),
            Part::One(Slot::Keyword(Keyword::All)),
        ]
    } else {
        &[
            Part::One(Slot::ServiceName),
            Part::One(Slot::ConsumerName),
            Part::One(Slot::Keyword(Keyword::Order)),
        ]
    }
}
