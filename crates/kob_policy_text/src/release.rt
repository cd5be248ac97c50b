//! Releases of Kafka.

ghost use Rattle.std.specs.Prelude.{◌≡◌};
ghost use Rattle.kob_policy_text.specs.Releases.{are_digits, around_dot};
ghost use Rattle.kob_policy_text.specs.Releases.{release_named};

use crate::pieces::first_parts;

/// A release of Kafka, by what its brokers ask of an idempotent producer (KIP-679).
#[derive(Clone, Copy)]
pub enum Release {
    /// IdempotentWrite on the cluster.
    Before28,
    /// IdempotentWrite on the cluster, or Write on some topic.
    Since28,
}

fn are_digits(text: &[u8]) -> bool
    ensures { result ≡ are_digits text.now }
{
    text.iter().all(|byte| byte.is_ascii_digit())
}

fn around_dot(text: &[u8]) -> (&[u8], &[u8])
    ensures { (result.0.now, result.1.now) ≡ around_dot text.entry.now }
{
    match first_parts(text, b".") {
        None => (text, b"".as_slice()),
        Some(parts) => parts,
    }
}

/// The release that a text such as `2.7` or `3.9.1` names.
#[tactic(auto, unfolding(crate::specs::Releases::release_named))]
pub fn release_named(text: &[u8]) -> Option<Release>
    ensures { result ≡ release_named text.now }
{
    let (major, rest) = around_dot(text);
    let (minor, _) = around_dot(rest);
    if major.is_empty() || !are_digits(major) || !are_digits(minor) {
        None
    } else if major == b"0".as_slice()
        || major == b"1".as_slice()
        || major == b"2".as_slice() && matches!(minor, [] | [b'0'..=b'7'])
    {
        Some(Release::Before28)
    } else {
        Some(Release::Since28)
    }
}
