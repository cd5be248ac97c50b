//! Sequences of records: they run from 0 to 2,147,483,647, and then from 0 again, as in Kafka's
//! idempotent producer.

ghost use Rattle.std.specs.Prelude.{◌≡◌, ◌<◌};
ghost use Rattle.kob_producers.specs.Judge.{sequences, next_sequence, last_of};

/// The number of sequences.
const SEQUENCES: u64 = 2_147_483_648;

/// The sequence after this one.
pub fn next_sequence(sequence: u64) -> u64
    ensures next { result ≡ next_sequence sequence }
    ensures within { result < sequences }
{
    (sequence % SEQUENCES + 1) % SEQUENCES
}

/// The sequence of the last of `count` records, of which the first has the sequence `base`. It is
/// `base` for no records.
pub fn last_of(base: u64, count: u64) -> u64
    ensures last { result ≡ last_of base count }
    ensures within { result < sequences }
{
    (base % SEQUENCES + count.saturating_sub(1) % SEQUENCES) % SEQUENCES
}
