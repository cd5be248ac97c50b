//! Rows of what words of a question have to be, and the first word that does not fit its row.

ghost use Rattle.std.specs.Prelude.{◌≡◌, ◌≤◌, IfOk, length};
ghost use Rattle.std.specs.Result.{is_ok};
ghost use Rattle.kob_script.specs.Words.{named_host, named_principal};
ghost use Rattle.kob_mistakes.specs.Rows.{fits, is_host, is_listed, misfit};

use crate::words::is_read;
use kob_names::ResourceKind;
use kob_script::{Word, host_of, lent_text_of, principal_of};
use kob_words::{operation_named, resource_named};
use std::alloc::{AllocError, Global};

/// What a word of a question has to be.
#[derive(Clone, Copy)]
pub(crate) enum Fit {
    Principal,
    Host,
    /// The word that says what is asked for.
    Act,
    Topic,
    Group,
    Name,
    /// A transactional id.
    Id,
    /// `prefix`
    Prefix,
    Operation,
    Resource,
    /// A kind of resource with many names: any but the cluster.
    ManyNamed,
    /// `yes` or `no`.
    Answer,
    May,
    /// `idempotent` or `transactional`.
    How,
}

/// The place of the first word that does not fit its row. If each fits, it is the place of the first
/// word too many, or of the one that is missing.
// Recursive: a row has at most eight words.
pub(crate) fn misfit(alloc: Global, row: &[Fit], words: &[Word<'_>]) -> Result<usize, AllocError>
    ensures place { IfOk result (λ place. place ≡ misfit row.now words.now) }
    ensures within { IfOk result (λ place. place ≤ length words.now) }
{
    match row {
        [] => Ok(0),
        [fit, row @ ..] => match words {
            [] => Ok(0),
            [word, words @ ..] => {
                if !fits(alloc, *fit, word)? {
                    return Ok(0);
                }
                Ok(misfit(alloc, row, words)? + 1)
            }
        },
    }
}

fn fits(alloc: Global, fit: Fit, word: &Word<'_>) -> Result<bool, AllocError>
    ensures { IfOk result (λ is. is ≡ fits fit word.now) }
{
    let name = word.decoded();
    match fit {
        Fit::Act | Fit::Topic | Fit::Group | Fit::Name | Fit::Id => Ok(true),
        Fit::Prefix => Ok(name == b"prefix".as_slice()),
        Fit::Principal => is_principal(alloc, word),
        Fit::Host => is_host(alloc, word),
        Fit::Operation => Ok(operation_named(name).is_some() || is_listed(name)),
        Fit::Resource => Ok(resource_named(name).is_some() || is_listed(name)),
        Fit::ManyNamed => match resource_named(name) {
            Some(resource) => Ok(resource != ResourceKind::Cluster),
            None => Ok(is_listed(name)),
        },
        Fit::Answer => Ok(name == b"yes".as_slice() || name == b"no".as_slice()),
        Fit::May => Ok(name == b"may".as_slice()),
        Fit::How => Ok(name == b"idempotent".as_slice() || name == b"transactional".as_slice()),
    }
}

fn is_principal(alloc: Global, word: &Word<'_>) -> Result<bool, AllocError>
    ensures { IfOk result (λ is. is ≡ is_ok (named_principal word.now)) }
{
    let Ok(text) = lent_text_of(word) else {
        return Ok(false);
    };
    is_read(principal_of(alloc, text))
}

fn is_host(alloc: Global, word: &Word<'_>) -> Result<bool, AllocError>
    ensures { IfOk result (λ is. is ≡ is_host word.now) }
{
    if word.decoded() == b"*".as_slice() {
        return Ok(false);
    }
    let Ok(text) = lent_text_of(word) else {
        return Ok(false);
    };
    is_read(host_of(alloc, text))
}

/// Whether a name is written as in a list: DESCRIBE_CONFIGS for DescribeConfigs.
fn is_listed(name: &[u8]) -> bool
    ensures { result ≡ is_listed name.now }
{
    name.contains(&b'_')
}
