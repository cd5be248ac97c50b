//! The words of the command line, read by `clap`.

ghost use Rattle.std.specs.Prelude.{◌≡◌, ◌++◌, ◌∷◌, [], IfOk, IsErr, Ok, OnOk, codes, map, string_bytes, true};
ghost use Rattle.clap.specs.Words.{AddsArg, AddsSubcommand, app_of, first_of, new_app};
ghost use Rattle.clap.specs.Words.{found_of, rows_of, rule_of, subcommand_rows_of};
ghost use Rattle.kob.specs.CommandLine.{Databases, one_of_names, export_app, files_app, flag, help_app, others};
ghost use Rattle.kob.specs.CommandLine.{IsTaskOf, asks_policy, kob_app, play_app, service};
ghost use Rattle.kob.specs.Options.{database_named, export_form_in, files_in, form_by};
ghost use Rattle.kob.specs.Options.{form_in, is_given, task_found, task_named, values_of};

use crate::connect::Database;
use crate::help::{HELP, HELP_EXPORT, HELP_PLAY, HELP_TOPIC};
use crate::policy_options::command as policy_command;
use clap::{Arg, ArgAction, ArgMatches, Command, Error};
use kob_names::{Items, Text};
use kob_scene_play::Form;
use std::alloc::{AllocError, Global};

/// What the program is to do.
#[derive(Drop)]
pub enum Task {
    /// Plays scenes and scripts, and writes the answers in a form that is asked for; without a file,
    /// standard input.
    Play(Option<Form>, Items<Text>),
    /// Exports the final state of scenes, or the connector of the service with this name, in a form
    /// that is asked for.
    Export(ExportForm, Option<Text>, Items<Text>),
    /// Answers questions about lists of bindings, by the words after `policy`.
    Policy,
    /// Compares the rows of an outbox with the records of a topic, in two files.
    Topic(Items<Text>),
    /// Prints a page of help, the general one without a subject.
    Help(Option<Text>),
    Version,
}

/// What an export prints.
#[derive(Clone, Copy)]
pub enum ExportForm {
    /// The final state, as commands and properties of Kafka and Debezium.
    Commands,
    /// A document for Kafka Connect for a service.
    Connect(Database),
    /// The statement that creates the outbox table.
    Table(Database),
}

/// The names of databases.
static DATABASES: [&str; 2] = ["postgresql", "mysql"];

/// The task that the words name, the first of which is the program's name. The error is what is
/// wrong with the words, or a page of help that they ask for.
pub fn task_of(alloc: Global, words: &[String]) -> Result<Task, Error>
    ensures policy { asks_policy (map string_bytes words.now) ≡ true → result ≡ Ok Task.Policy }
    ensures task { IfOk result (IsTaskOf (map string_bytes words.now)) }
{
    if asks_policy(words) {
        return Ok(Task::Policy);
    }
    match command(alloc)?.try_get_matches_from(words) {
        Ok(matches) => Ok(task_in(alloc, &matches)?),
        Err(error) => Err(error),
    }
}

/// Whether the words after `policy` are its own.
fn asks_policy(words: &[String]) -> bool
    ensures { result ≡ asks_policy (map string_bytes words.now) }
{
    match words.get(1) {
        Some(word) => word.as_str() == "policy",
        None => false,
    }
}

/// All options, for `clap` and for the completions of shells.
fn command<'a>(alloc: Global) -> Result<Command<'a>, AllocError>
    ensures { IfOk result (λ made. (databases : Databases) × (app_of made ≡ kob_app databases)) }
{
    let made = named(alloc, "kob", HELP).disable_help_subcommand(true);
    let made = made.arg(flag(alloc, "version").short('V'))?;
    let made = with_subcommand(made, play_command(alloc))?;
    let made = with_subcommand(made, export_command(alloc))?;
    let made = with_subcommand(made, policy_command(alloc))?;
    let made = with_subcommand(made, files_command(alloc, "topic", HELP_TOPIC))?;
    with_subcommand(made, help_command(alloc))
}

/// A command of this name, with its page of help.
pub fn named<'a>(alloc: Global, name: &'a str, help: &'a str) -> Command<'a>
    ensures { app_of result ≡ new_app name.entry.now }
{
    Command::new(alloc, name).override_help(help)
}

/// A subcommand more, if it could be made.
fn with_subcommand<'a>(
    made: Command<'a>,
    subcommand: Result<Command<'a>, AllocError>,
) -> Result<Command<'a>, AllocError>
    ensures added { IfOk result (λ grown.
        IfOk subcommand.entry (λ given. AddsSubcommand made.entry given grown)) }
    ensures refused { IsErr subcommand.entry → IsErr result }
{
    let subcommand = subcommand?;
    made.subcommand(subcommand)
}

/// An argument more, if it could be made.
pub fn with_arg<'a>(
    made: Command<'a>,
    arg: Result<Arg<'a>, AllocError>,
) -> Result<Command<'a>, AllocError>
    ensures added { IfOk result (λ grown. IfOk arg.entry (λ given. AddsArg made.entry given grown)) }
    ensures refused { IsErr arg.entry → IsErr result }
{
    let arg = arg?;
    made.arg(arg)
}

fn play_command<'a>(alloc: Global) -> Result<Command<'a>, AllocError>
    ensures { IfOk result (λ made. app_of made ≡ play_app) }
{
    let made = files_command(alloc, "play", HELP_PLAY)?.arg(flag(alloc, "trace"))?;
    with_arg(made, flag(alloc, "json").conflicts_with("trace"))
}

fn export_command<'a>(alloc: Global) -> Result<Command<'a>, AllocError>
    ensures { IfOk result (λ made.
        (databases : Databases) × (app_of made ≡ export_app databases)) }
{
    let names = DATABASES.as_slice();
    let made = files_command(alloc, "export", HELP_EXPORT)?.arg(one_of_names(
        alloc, names, "connect",
    ))?;
    let made = with_arg(
        made,
        one_of_names(alloc, names, "table").conflicts_with("connect"),
    )?;
    with_arg(made, service(alloc).requires_arg("connect"))
}

/// An option that takes the name of a service.
fn service<'a>(alloc: Global) -> Arg<'a>
    ensures { rule_of result ≡ service }
{
    Arg::new(alloc, "service")
        .long("service")
        .value_name("NAME")
        .action(ArgAction::Set)
}

fn help_command<'a>(alloc: Global) -> Result<Command<'a>, AllocError>
    ensures { IfOk result (λ made. app_of made ≡ help_app) }
{
    let subject = Arg::new(alloc, "SUBJECT").action(ArgAction::Set);
    named(alloc, "help", HELP).arg(subject)
}

pub fn flag<'a>(alloc: Global, name: &'a str) -> Arg<'a>
    ensures { rule_of result ≡ flag name.entry.now }
{
    Arg::new(alloc, name).long(name).action(ArgAction::SetTrue)
}

/// An option that takes one of these names.
fn one_of_names<'a>(alloc: Global, names: &'a [&'a str], name: &'a str) -> Arg<'a>
    ensures { rule_of result ≡ one_of_names names.entry name.entry.now }
{
    Arg::new(alloc, name)
        .long(name)
        .action(ArgAction::Set)
        .value_parser(names)
}

/// A command that takes files.
fn files_command<'a>(alloc: Global, name: &'a str, help: &'a str) -> Result<Command<'a>, AllocError>
    ensures { IfOk result (λ made. app_of made ≡ files_app name.entry.now) }
{
    named(alloc, name, help).arg(others(alloc, "FILE"))
}

/// The words that belong to no option.
pub fn others<'a>(alloc: Global, name: &'a str) -> Arg<'a>
    ensures { rule_of result ≡ others name.entry.now }
{
    Arg::new(alloc, name)
        .num_args(0..)
        .action(ArgAction::Append)
}

fn task_in(alloc: Global, matches: &ArgMatches<'_>) -> Result<Task, AllocError>
    ensures { IfOk result (λ task. task ≡ task_found (subcommand_rows_of matches.now)
        (is_given (rows_of (found_of matches.now)) (codes "version"))) }
{
    match matches.subcommand() {
        Some((name, used)) => task_named(alloc, name, used),
        None if is_given(matches, "version") => Ok(Task::Version),
        None => Ok(Task::Help(None)),
    }
}

/// The task of a subcommand of this name.
fn task_named(alloc: Global, name: &str, used: &ArgMatches<'_>) -> Result<Task, AllocError>
    ensures { IfOk result (λ task. task ≡ task_named name.now (rows_of (found_of used.now))) }
{
    match name {
        "play" => Ok(Task::Play(form_in(used), values_of(alloc, used, "FILE")?)),
        "export" => {
            let files = values_of(alloc, used, "FILE")?;
            let service = value_of(alloc, used, "service")?;
            Ok(Task::Export(export_form_in(used), service, files))
        }
        "policy" => Ok(Task::Policy),
        "topic" => Ok(Task::Topic(values_of(alloc, used, "FILE")?)),
        _ => Ok(Task::Help(value_of(alloc, used, "SUBJECT")?)),
    }
}

/// The form of the answers that the options ask for, of which not both can be given.
fn form_in(matches: &ArgMatches<'_>) -> Option<Form>
    ensures { result ≡ form_in (rows_of (found_of matches.now)) }
{
    match (is_given(matches, "json"), is_given(matches, "trace")) {
        (true, _) => Some(Form::Json),
        (false, true) => Some(Form::Trace),
        (false, false) => None,
    }
}

/// What an export is to print, by the databases that the options name, of which not both can be
/// given.
fn export_form_in(matches: &ArgMatches<'_>) -> ExportForm
    ensures { result ≡ export_form_in (rows_of (found_of matches.now)) }
{
    match (matches.get_str("connect"), matches.get_str("table")) {
        (Some(name), _) => ExportForm::Connect(database_named(name)),
        (None, Some(name)) => ExportForm::Table(database_named(name)),
        (None, None) => ExportForm::Commands,
    }
}

/// `clap` takes no other name than these two.
fn database_named(name: &str) -> Database
    ensures { result ≡ database_named name.now }
{
    if name == "mysql" {
        Database::Mysql
    } else {
        Database::Postgresql
    }
}

/// Whether a flag is given, for which `clap` then has `true`.
pub fn is_given(matches: &ArgMatches<'_>, name: &str) -> bool
    ensures { result ≡ is_given (rows_of (found_of matches.now)) name.now }
{
    match matches.get_str(name) {
        Some(text) => text == "true",
        None => false,
    }
}

/// The value of an argument, if it is given.
fn value_of(alloc: Global, matches: &ArgMatches<'_>, name: &str) -> Result<Option<Text>, AllocError>
    ensures { IfOk result (λ value. value ≡ first_of name.now (rows_of (found_of matches.now))) }
{
    match matches.get_str(name) {
        Some(text) => Ok(Some(Text::copied(alloc, text)?)),
        None => Ok(None),
    }
}

/// The values of an argument, in the order given.
pub fn values_of(
    alloc: Global,
    matches: &ArgMatches<'_>,
    name: &str,
) -> Result<Items<Text>, AllocError>
    ensures { IfOk result (λ values. values ≡ values_of (rows_of (found_of matches.now)) name.now) }
{
    match matches.get_strs(name) {
        Some(texts) => copies_of(alloc, texts),
        None => Ok(Items::from_vec(Vec::new(alloc))),
    }
}

fn copies_of(alloc: Global, texts: &[&str]) -> Result<Items<Text>, AllocError>
    ensures { IfOk result (λ made. made ≡ map (λ text. text.now) texts.now) }
{
    let mut made = Vec::new(alloc);
    for text in texts {
        made.push(Text::copied(alloc, text)?)?;
    }
    Ok(Items::from_vec(made))
}
