//! Words that are left out of a line of a scene, known by what is in their places.

ghost use Rattle.std.specs.Prelude.{◌≡◌, map};
ghost use Rattle.kob_mistakes.specs.LeftOut.{lacks_partition};
ghost use Rattle.kob_mistakes.specs.LeftOut.{left_out, left_out_text, place_of_left_out};

use crate::forms::is_command;
use crate::record::word_is;
use crate::words::word_at;

/// What is left out of a line.
#[derive(Clone, Copy)]
pub(crate) enum LeftOut {
    /// HOST of a declaration.
    WorkersHost,
    /// HOST of a request.
    AskersHost,
    /// PAYLOAD of a record.
    Payload,
    /// The partition of a topic that a consumer reads.
    Partition,
}

impl LeftOut {
    /// The place of the word that stands where one is left out, of a line with a fault at a place.
    pub(crate) fn place(self, place: usize) -> usize
        ensures { result ≡ place_of_left_out self place }
    {
        match self {
            LeftOut::WorkersHost => 3,
            LeftOut::AskersHost => 1,
            LeftOut::Payload => 6,
            LeftOut::Partition => place,
        }
    }

    pub(crate) fn hint(self) -> &'static str
        ensures { result.now ≡ left_out_text self }
    {
        match self {
            LeftOut::WorkersHost | LeftOut::AskersHost => "HOST is missing here, as 10.0.0.1",
            LeftOut::Payload => "PAYLOAD is missing here, as {\"total\":10}, or STATE at the end",
            LeftOut::Partition => "a topic is read by its partitions, as orders:0",
        }
    }
}

/// What is left out of a line with a fault at a place.
#[tactic(auto, using(crate::proofs::Walking::lent_length))]
pub(crate) fn left_out(line: &[u8], words: &[&[u8]], place: usize) -> Option<LeftOut>
    ensures { result ≡ left_out line.now (map (λ word. word.now) words.now) place }
{
    if place == 4
        && (word_is(words, 0, b"service") && word_is(words, 3, b"partitions")
            || word_is(words, 0, b"consumer") && word_is(words, 3, b"group"))
    {
        Some(LeftOut::WorkersHost)
    } else if place == 2 && word_at(words, 0).contains(&b':') && is_command(word_at(words, 1)) {
        Some(LeftOut::AskersHost)
    } else if place == 9
        && words.len() == 9
        && word_is(words, 1, b"record")
        && !line.contains(&b'{')
    {
        Some(LeftOut::Payload)
    } else if lacks_partition(words, place) {
        Some(LeftOut::Partition)
    } else {
        None
    }
}

/// Whether a word without a colon stands behind `reads`, or behind a partition.
fn lacks_partition(words: &[&[u8]], place: usize) -> bool
    ensures { result ≡ lacks_partition (map (λ word. word.now) words.now) place }
{
    word_is(words, 0, b"consumer")
        && place > 8
        && !word_at(words, place).contains(&b':')
        && (word_is(words, place - 1, b"reads") || word_at(words, place - 1).contains(&b':'))
}
