//! Which options may be used together, and which others they need.

ghost use Rattle.std.specs.Prelude.{◌≡◌, [], None, IfSome};
ghost use Rattle.kob_acl_cli.specs.Commands.{IsFirstFault};
ghost use Rattle.kob_acl_cli.specs.Mixes as mixes;

use crate::args::CliArgs;
use crate::fault::CommandFault;
use kob_names::{Items, Text};

/// Whether exactly one of `--add`, `--remove` and `--list` is given.
pub fn has_one_action(args: &CliArgs) -> bool
    ensures { result ≡ mixes.has_one_action args.now }
{
    u8::from(args.add) + u8::from(args.remove) + u8::from(args.list) == 1
}

/// Why options whose words are valid are refused, by the first rule that they break.
pub fn refusal(args: &CliArgs) -> Option<CommandFault>
    ensures first { IfSome result (λ fault. IsFirstFault (mixes.refusals args.now) fault) }
    ensures none { result ≡ None → mixes.refusals args.now ≡ [] }
{
    if is_bad_mix_of_holders(args)
        || is_bad_mix_of_action(args)
        || is_bad_mix_of_convenience(args)
    {
        Some(CommandFault::BadMix)
    } else if lacks_resource(args) {
        Some(CommandFault::NoResource)
    } else if (args.add || has_convenience(args)) && !has_holder(args) {
        Some(CommandFault::NoPrincipal)
    } else {
        None
    }
}

/// Whether the options need a resource that is not given.
fn lacks_resource(args: &CliArgs) -> bool
    ensures { result ≡ mixes.lacks_resource args.now }
{
    let has_resource = is_given(&args.topics)
        || is_given(&args.groups)
        || args.cluster
        || is_given(&args.transactional_ids);
    (args.add || args.remove) && !has_resource
        || args.producer && !is_given(&args.topics)
        || args.consumer && !(is_given(&args.topics) && is_given(&args.groups))
}

/// Whether `--allow-principal` or `--deny-principal` is given.
pub fn has_holder(args: &CliArgs) -> bool
    ensures { result ≡ mixes.has_holder args.now }
{
    is_given(&args.allow_principals) || is_given(&args.deny_principals)
}

/// Whether `--producer` or `--consumer` is given.
pub fn has_convenience(args: &CliArgs) -> bool
    ensures { result ≡ mixes.has_convenience args.now }
{
    args.producer || args.consumer
}

fn is_given(texts: &Items<Text>) -> bool
    ensures { result ≡ mixes.is_given texts.now }
{
    texts.len() > 0
}

fn is_bad_mix_of_holders(args: &CliArgs) -> bool
    ensures { result ≡ mixes.is_bad_mix_of_holders args.now }
{
    is_given(&args.allow_hosts) && !is_given(&args.allow_principals)
        || is_given(&args.deny_hosts) && !is_given(&args.deny_principals)
        || is_given(&args.operations) && args.remove && !has_holder(args)
}

fn is_bad_mix_of_action(args: &CliArgs) -> bool
    ensures { result ≡ mixes.is_bad_mix_of_action args.now }
{
    args.add && is_for_filters(&args.pattern_type)
        || is_given(&args.principals) && !args.list
        || args.list
            && (has_holder(args)
                || is_given(&args.allow_hosts)
                || is_given(&args.deny_hosts)
                || is_given(&args.operations)
                || has_convenience(args)
                || args.idempotent)
}

fn is_bad_mix_of_convenience(args: &CliArgs) -> bool
    ensures { result ≡ mixes.is_bad_mix_of_convenience args.now }
{
    has_convenience(args)
        && (is_given(&args.deny_principals)
            || is_given(&args.deny_hosts)
            || is_given(&args.operations)
            || args.cluster
            || is_given(&args.transactional_ids))
        || args.idempotent && !args.producer
        || is_given(&args.groups) && args.producer && !args.consumer
}

fn is_for_filters(pattern_type: &Option<Text>) -> bool
    ensures { result ≡ mixes.is_for_filters pattern_type.now }
{
    match pattern_type {
        None => false,
        Some(word) => {
            let word = word.as_str();
            word.eq_ignore_ascii_case("any") || word.eq_ignore_ascii_case("match")
        }
    }
}
