//! The options of `kob policy`, read by `clap`.

ghost use Rattle.std.specs.Prelude.{◌≡◌, ◌++◌, IfOk, codes, filter, find, map, string_bytes};
ghost use Rattle.std.specs.List.{slice_split};
ghost use Rattle.clap.specs.Words.{app_of, found_of, rows_of, rule_of};
ghost use Rattle.kob.specs.CommandLine.{flag, bound, is_next, options_by, parts_by, policy_app, repeated};
ghost use Rattle.kob.specs.Options.{answer_form_in, has_meaning, is_asked};
ghost use Rattle.kob.specs.Options.{is_log, is_question, name_in, options_in, shared, words_of};

use crate::help::HELP_POLICY;
use crate::options::{flag, is_given, named, others, values_of, with_arg};
use clap::{Arg, ArgAction, ArgMatches, Command, Error};
use kob_names::{Items, Text};
use std::alloc::{AllocError, Global};

/// The values of each option, in the order given.
#[derive(Drop)]
pub struct Options {
    pub policy: Items<Text>,
    pub questions: Items<Text>,
    pub topics: Items<Text>,
    pub before: Items<Text>,
    pub after: Items<Text>,
    /// The logs of brokers, also those of the questions `log FILE`.
    pub logs: Items<Text>,
    /// The questions among the other words.
    pub words: Items<Text>,
    /// The releases of the brokers, of which the last counts.
    pub kafka: Items<Text>,
    pub skip: bool,
    /// The commands that lead from `before` to `after` are printed, and nothing else.
    pub commands: bool,
    pub form: AnswerForm,
}

/// How answers are printed.
#[derive(Clone, Copy, PartialEq, Eq)]
pub enum AnswerForm {
    /// In words, below their questions.
    Words,
    /// As objects of JSON.
    Json,
    /// As one table of comma-separated values.
    Csv,
}

/// What a word is that belongs to no option.
#[derive(Clone, Copy)]
enum Meaning {
    /// The name of a list.
    List,
    /// `log `, and the name of a broker's log.
    Log,
    /// Another question.
    Question,
}

/// The options of `policy`.
pub fn command<'a>(alloc: Global) -> Result<Command<'a>, AllocError>
    ensures { IfOk result (λ made. app_of made ≡ policy_app) }
{
    let made = named(alloc, "policy", HELP_POLICY).arg(repeated(alloc, "policy", "FILE"))?;
    let made = made.arg(repeated(alloc, "questions", "FILE"))?;
    let made = made.arg(repeated(alloc, "topics", "FILE"))?;
    let made = made.arg(repeated(alloc, "log", "FILE"))?;
    let made = with_arg(
        made,
        repeated(alloc, "before", "FILE").requires_arg("after"),
    )?;
    let made = with_arg(
        made,
        repeated(alloc, "after", "FILE").requires_arg("before"),
    )?;
    let made = made.arg(repeated(alloc, "kafka", "VERSION"))?;
    let made = made.arg(flag(alloc, "skip"))?;
    let made = with_arg(made, commands(alloc))?;
    let made = with_arg(made, json(alloc))?;
    let made = with_arg(made, flag(alloc, "csv").conflicts_with("commands"))?;
    made.arg(others(alloc, "QUESTION"))
}

fn commands<'a>(alloc: Global) -> Result<Arg<'a>, AllocError>
    ensures { IfOk result (λ made. rule_of made ≡ bound (flag (codes "commands"))) }
{
    flag(alloc, "commands")
        .requires_arg("before")?
        .conflicts_with("questions")?
        .conflicts_with("topics")
}

fn json<'a>(alloc: Global) -> Result<Arg<'a>, AllocError>
    ensures { IfOk result (λ made. rule_of made ≡ bound (flag (codes "json"))) }
{
    flag(alloc, "json")
        .conflicts_with("csv")?
        .conflicts_with("commands")
}

/// An option with a value that is given any number of times.
fn repeated<'a>(alloc: Global, name: &'a str, value: &'a str) -> Arg<'a>
    ensures { rule_of result ≡ repeated name.entry.now }
{
    Arg::new(alloc, name)
        .long(name)
        .value_name(value)
        .action(ArgAction::Append)
}

/// The options of each part of the words; `--next` stands between two parts.
pub fn parts_of(alloc: Global, words: &[String]) -> Result<Vec<Options>, Error>
    ensures { IfOk result (λ parts. parts.items ≡ parts_by words.now) }
{
    let mut parts = Vec::new(alloc);
    let cut = parts_in(alloc, words)?;
    for part in &cut {
        let options = options_of(alloc, part)?;
        parts.push(options).map_err(AllocError::from)?;
    }
    share_form(&mut parts);
    Ok(parts)
}

/// The words of each part.
fn parts_in(alloc: Global, words: &[String]) -> Result<Vec<&[String]>, AllocError>
    ensures { IfOk result (λ parts.
        map (λ part. part.now) parts.items
        ≡ slice_split (λ word. is_next (string_bytes word)) words.now) }
{
    words.split(|word| word.as_str() == "--next").collect(alloc)
}

/// One form counts for all parts: the first one that is asked for.
fn share_form(parts: &mut [Options])
    ensures { parts.new ≡ shared parts.old }
{
    if let Some(form) = form_asked(parts) {
        for place in 0..parts.len() {
            parts[place].form = form;
        }
    }
}

/// The first form that is asked for.
fn form_asked(parts: &[Options]) -> Option<AnswerForm>
    ensures { result ≡ find is_asked (map (λ part. part.form) parts.now) }
{
    parts
        .iter()
        .map(|part| part.form)
        .find(|form| matches!(form, AnswerForm::Json | AnswerForm::Csv))
}

/// The options that words give, of which the first is no program's name. The error is what is wrong
/// with the words, or the page of help.
fn options_of(alloc: Global, words: &[String]) -> Result<Options, Error>
    ensures { IfOk result (λ options. options ≡ options_by (map string_bytes words.now)) }
{
    let part = command(alloc)?.no_binary_name(true).bin_name("kob policy")?;
    match part.try_get_matches_from(words) {
        Ok(matches) => Ok(options_in(alloc, &matches)?),
        Err(error) => Err(error),
    }
}

fn options_in(alloc: Global, matches: &ArgMatches<'_>) -> Result<Options, AllocError>
    ensures { IfOk result (λ options. options ≡ options_in (rows_of (found_of matches.now))) }
{
    let words = values_of(alloc, matches, "QUESTION")?;
    let words = words.as_slice();
    Ok(Options {
        policy: with_words(
            alloc,
            values_of(alloc, matches, "policy")?,
            words,
            Meaning::List,
        )?,
        questions: values_of(alloc, matches, "questions")?,
        topics: values_of(alloc, matches, "topics")?,
        before: values_of(alloc, matches, "before")?,
        after: values_of(alloc, matches, "after")?,
        logs: with_words(
            alloc,
            values_of(alloc, matches, "log")?,
            words,
            Meaning::Log,
        )?,
        words: with_words(
            alloc,
            Items::from_vec(Vec::new(alloc)),
            words,
            Meaning::Question,
        )?,
        kafka: values_of(alloc, matches, "kafka")?,
        skip: is_given(matches, "skip"),
        commands: is_given(matches, "commands"),
        form: form_in(matches),
    })
}

/// Texts, and behind them the words of this meaning.
fn with_words(
    alloc: Global,
    texts: Items<Text>,
    words: &[Text],
    meaning: Meaning,
) -> Result<Items<Text>, AllocError>
    ensures { IfOk result (λ made. made ≡ texts ++ words_of meaning words.now) }
{
    let mut made = texts.into_vec();
    for word in words {
        if has_meaning(word.as_str(), meaning) {
            made.push(Text::copied(alloc, name_in(word.as_str()))?)?;
        }
    }
    Ok(Items::from_vec(made))
}

fn has_meaning(word: &str, meaning: Meaning) -> bool
    ensures { result ≡ has_meaning meaning word.now }
{
    match meaning {
        Meaning::Log => is_log(word),
        Meaning::Question => !is_log(word) && is_question(word),
        Meaning::List => !is_log(word) && !is_question(word),
    }
}

fn is_log(word: &str) -> bool
    ensures { result ≡ is_log word.now }
{
    word.starts_with("log ")
}

/// The name of a log behind `log `; any other word is whole.
fn name_in(word: &str) -> &str
    ensures { result.now ≡ name_in word.now }
{
    word.strip_prefix("log ").unwrap_or(word)
}

/// The form that the options ask for, of which not both can be given.
fn form_in(matches: &ArgMatches<'_>) -> AnswerForm
    ensures { result ≡ answer_form_in (rows_of (found_of matches.now)) }
{
    match (is_given(matches, "json"), is_given(matches, "csv")) {
        (true, _) => AnswerForm::Json,
        (false, true) => AnswerForm::Csv,
        (false, false) => AnswerForm::Words,
    }
}

/// Whether a word of the command line is a question: it has a blank, or is a question of one word.
/// Any other word names a list.
fn is_question(word: &str) -> bool
    ensures { result ≡ is_question word.now }
{
    word.as_bytes().contains(&b' ')
        || word == "unused"
        || word == "shadowed"
        || word == "removable"
        || word == "summary"
}
