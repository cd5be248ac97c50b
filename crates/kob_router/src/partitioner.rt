//! The partition of a key, as Kafka's default partitioner picks it.

ghost use Rattle.std.specs.Prelude.{◌≡◌, ◌<◌};
ghost use Rattle.kob_router.specs.Run.{murmur2, partition_of, with_bytes};
ghost use Rattle.kob_router.specs.Run.{with_rest, with_upper_bits};

const FACTOR: u32 = 0x5bd1e995;

const SEED: u32 = 0x9747b28c;

/// The partition of a key, out of `partitions`: murmur2 of the key without its sign bit, modulo
/// their number, as in Kafka's default partitioner. Equal keys have equal partitions. Does not
/// allocate.
pub fn partition_of(key: &[u8], partitions: u32) -> u32
    requires { 0 < partitions }
    ensures value { result ≡ partition_of key.now partitions }
    ensures within { result < partitions }
{
    (murmur2(key) & 0x7fffffff) % partitions
}

fn murmur2(bytes: &[u8]) -> u32
    ensures { result ≡ murmur2 bytes.now }
{
    let length = (bytes.len() % 0x1_0000_0000) as u32;
    let hash = with_bytes(SEED ^ length, bytes);
    with_upper_bits(with_upper_bits(hash, 13).wrapping_mul(FACTOR), 15)
}

fn with_bytes(start: u32, bytes: &[u8]) -> u32
    ensures { result ≡ with_bytes start bytes.now }
{
    let mut hash = start;
    let mut at: usize = 0;
    while bytes.len() - at >= 4 {
        let word = bytes[at] as u32
            + 0x100 * bytes[at + 1] as u32
            + 0x1_0000 * bytes[at + 2] as u32
            + 0x100_0000 * bytes[at + 3] as u32;
        let word = with_upper_bits(word.wrapping_mul(FACTOR), 24).wrapping_mul(FACTOR);
        hash = hash.wrapping_mul(FACTOR) ^ word;
        at += 4;
    }
    match &bytes[at..] {
        [] => hash,
        [a] => with_rest(hash, *a as u32),
        [a, b] => with_rest(hash, *a as u32 + 0x100 * *b as u32),
        [a, b, c] => with_rest(hash, *a as u32 + 0x100 * *b as u32 + 0x1_0000 * *c as u32),
        _ => unreachable!(),
    }
}

fn with_upper_bits(number: u32, bits: u32) -> u32
    requires { bits < 32 }
    ensures { result ≡ with_upper_bits number bits }
{
    number ^ (number >> bits)
}

fn with_rest(hash: u32, rest: u32) -> u32
    ensures { result ≡ with_rest hash rest }
{
    (hash ^ rest).wrapping_mul(FACTOR)
}
