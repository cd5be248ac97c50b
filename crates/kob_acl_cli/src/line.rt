//! Reading the words of a command line by `clap`.

ghost use Rattle.std.specs.Prelude.{◌≡◌, [], true, alloc_error, IfOk, IfErr};
ghost use Rattle.clap.specs.Words.{app_of, first_of, found_of, kind_of, rows_of};
ghost use Rattle.kob_acl_cli.specs.Lines.{IsFlag, IsReadOf, is_taken, line_app, line_fault};
ghost use Rattle.kob_acl_cli.specs.Lines.{refusals, rows_of_line, texts, values_of, with_options};

use crate::args::CliArgs;
use crate::fault::LineFault;
use clap::error::ErrorKind;
use clap::{Arg, ArgAction, ArgMatches, Command, Error};
use kob_names::{Items, Text};
use std::alloc::{AllocError, Global};

static REPEATED: [&str; 9] = [
    "allow-principal",
    "deny-principal",
    "allow-host",
    "deny-host",
    "operation",
    "topic",
    "group",
    "transactional-id",
    "principal",
];

static SINGLE: [&str; 3] = [
    "resource-pattern-type",
    "bootstrap-server",
    "command-config",
];

static FLAGS: [&str; 8] = [
    "add",
    "remove",
    "list",
    "cluster",
    "producer",
    "consumer",
    "idempotent",
    "force",
];

/// The options that the words give, as `clap` reads them: no abbreviations, and a value follows `=`
/// or is the next word, which must not begin with `-` unless it is `-` alone. Options that name
/// something may be repeated; `--resource-pattern-type`, `--bootstrap-server`, `--command-config`
/// and flags occur at most once. `--force`, `--bootstrap-server` and `--command-config` have no
/// effect. `Usage` is whatever `clap` refuses for another cause than out of memory, also bare words
/// and `--help`. The contract is in terms of what `clap` accepts and returns; tests show what that
/// is for a line.
pub fn read_line<'a>(alloc: Global, words: &'a [&'a str]) -> Result<CliArgs, LineFault>
    ensures read { IfOk result (λ args. IsReadOf (rows_of_line (texts words.entry.now)) args) }
    ensures taken { IfOk result (λ args. refusals (texts words.entry.now) ≡ []) }
    ensures refused { IfErr result (λ fault.
        is_taken (texts words.entry.now) ≡ true → fault ≡ LineFault.Memory alloc_error) }
    ensures usage { IfErr result (λ fault.
        fault ≡ LineFault.Usage → refusals (texts words.entry.now) ≡ [] → ⊥) }
{
    let command = command(alloc)?;
    match command.try_get_matches_from(words) {
        Ok(matches) => Ok(args_of(alloc, &matches)?),
        Err(error) => Err(fault_of(&error)),
    }
}

fn command<'a>(alloc: Global) -> Result<Command<'a>, AllocError>
    ensures { IfOk result (λ made. app_of made ≡ line_app) }
{
    let bare = Command::new(alloc, "kafka-acls")
        .no_binary_name(true)
        .disable_help_flag(true);
    let repeated = with_options(alloc, bare, REPEATED.as_slice(), ArgAction::Append)?;
    let single = with_options(alloc, repeated, SINGLE.as_slice(), ArgAction::Set)?;
    with_options(alloc, single, FLAGS.as_slice(), ArgAction::SetTrue)
}

fn with_options<'a>(
    alloc: Global,
    command: Command<'a>,
    names: &[&'a str],
    action: ArgAction,
) -> Result<Command<'a>, AllocError>
    ensures { IfOk result (λ made. app_of made
        ≡ with_options action (app_of command.entry) (texts names.entry.now)) }
{
    let mut made = command;
    for name in names {
        made = made.arg(Arg::new(alloc, name).long(name).action(action))?;
    }
    Ok(made)
}

// The errors of `clap` keep no error of an allocation, so that this one is made of their kind.
fn fault_of(error: &Error) -> LineFault
    ensures { result ≡ line_fault (kind_of error.now) }
{
    match error.kind() {
        ErrorKind::OutOfMemory => LineFault::Memory(AllocError),
        _ => LineFault::Usage,
    }
}

fn args_of(alloc: Global, matches: &ArgMatches<'_>) -> Result<CliArgs, AllocError>
    ensures { IfOk result (λ args. IsReadOf (rows_of (found_of matches.now)) args) }
{
    Ok(CliArgs {
        allow_principals: texts_of(alloc, matches, "allow-principal")?,
        deny_principals: texts_of(alloc, matches, "deny-principal")?,
        allow_hosts: texts_of(alloc, matches, "allow-host")?,
        deny_hosts: texts_of(alloc, matches, "deny-host")?,
        operations: texts_of(alloc, matches, "operation")?,
        topics: texts_of(alloc, matches, "topic")?,
        groups: texts_of(alloc, matches, "group")?,
        transactional_ids: texts_of(alloc, matches, "transactional-id")?,
        principals: texts_of(alloc, matches, "principal")?,
        pattern_type: text_of(alloc, matches, "resource-pattern-type")?,
        add: flag_of(matches, "add"),
        remove: flag_of(matches, "remove"),
        list: flag_of(matches, "list"),
        cluster: flag_of(matches, "cluster"),
        producer: flag_of(matches, "producer"),
        consumer: flag_of(matches, "consumer"),
        idempotent: flag_of(matches, "idempotent"),
    })
}

fn texts_of(alloc: Global, matches: &ArgMatches<'_>, id: &str) -> Result<Items<Text>, AllocError>
    ensures { IfOk result (λ texts. texts ≡ values_of (rows_of (found_of matches.now)) id.now) }
{
    match matches.get_strs(id) {
        Some(values) => copies_of(alloc, values),
        None => Ok(Items::from_vec(Vec::new(alloc))),
    }
}

fn copies_of(alloc: Global, values: &[&str]) -> Result<Items<Text>, AllocError>
    ensures { IfOk result (λ made. made ≡ texts values.now) }
{
    let mut made = Vec::new(alloc);
    for value in values {
        made.push(Text::copied(alloc, value)?)?;
    }
    Ok(Items::from_vec(made))
}

fn text_of(alloc: Global, matches: &ArgMatches<'_>, id: &str) -> Result<Option<Text>, AllocError>
    ensures { IfOk result (λ text. text ≡ first_of id.now (rows_of (found_of matches.now))) }
{
    match matches.get_str(id) {
        Some(text) => Ok(Some(Text::copied(alloc, text)?)),
        None => Ok(None),
    }
}

fn flag_of(matches: &ArgMatches<'_>, id: &str) -> bool
    ensures { IsFlag (rows_of (found_of matches.now)) id.now result }
{
    matches.get_flag(id)
}
