//! The forms of lines, as the pages show them, by the words that say what a line is.

ghost use Rattle.std.specs.Prelude.{◌≡◌, map, option_map};
ghost use Rattle.std.specs.List.{list_any};
ghost use Rattle.std.specs.Str.{bytes_eq};
ghost use Rattle.kob_mistakes.specs.Commands.{is_command};
ghost use Rattle.kob_mistakes.specs.Forms.{consumer_forms, form_in, form_of, form_of_step, line_forms};
ghost use Rattle.kob_mistakes.specs.Forms.{request_form, request_forms};
ghost use Rattle.kob_mistakes.specs.Forms.{request_or_step, service_forms};

use crate::words::word_at;
use crate::worker::WorkerKind;

/// The names of commands, with the form of a question of each, which without `may` is that of a request.
pub(crate) const REQUESTS: [(&str, &str); 16] = [
    (
        "create-topic",
        "may PRINCIPAL HOST create-topic TOPIC PARTITIONS",
    ),
    ("delete-topic", "may PRINCIPAL HOST delete-topic TOPIC"),
    ("metadata", "may PRINCIPAL HOST metadata [TOPIC]"),
    (
        "produce",
        "may PRINCIPAL HOST produce TOPIC PARTITION -|ID:EPOCH:BASE [KEY=]VALUE ..",
    ),
    (
        "fetch",
        "may PRINCIPAL HOST fetch TOPIC PARTITION OFFSET MAX",
    ),
    (
        "list-offsets",
        "may PRINCIPAL HOST list-offsets TOPIC PARTITION -1|-2",
    ),
    (
        "delete-records",
        "may PRINCIPAL HOST delete-records TOPIC PARTITION OFFSET|-1",
    ),
    ("init-producer", "may PRINCIPAL HOST init-producer"),
    (
        "commit",
        "may PRINCIPAL HOST commit GROUP TOPIC PARTITION OFFSET",
    ),
    (
        "committed",
        "may PRINCIPAL HOST committed GROUP TOPIC PARTITION",
    ),
    ("groups", "may PRINCIPAL HOST groups"),
    ("delete-group", "may PRINCIPAL HOST delete-group GROUP"),
    (
        "create-acl",
        "may PRINCIPAL HOST create-acl allow|deny PRINCIPAL HOST OPERATION RESOURCE literal|prefixed NAME",
    ),
    (
        "describe-acls",
        "may PRINCIPAL HOST describe-acls RESOURCE NAME PATTERN PRINCIPAL HOST OPERATION PERMISSION, each or -",
    ),
    (
        "delete-acls",
        "may PRINCIPAL HOST delete-acls RESOURCE NAME PATTERN PRINCIPAL HOST OPERATION PERMISSION, each or -",
    ),
    (
        "acl",
        "may PRINCIPAL HOST acl --add|--remove|--list OPTION ..",
    ),
];

/// The form of a law, where its line names a variant.
pub(crate) const LAW_FORM: &str =
    "law SERVICE CONSUMER, of the proved ones: for a variant (retries new, deletes first, not idempotent, separate, visible late, start latest, commits before, no dedup) no law is proved; check and expect take it";

/// The lines that begin with a word of their own.
pub(crate) static LINES: [(&str, &str); 8] = [
    ("super", "super PRINCIPAL"),
    ("everyone", "everyone on|off"),
    (
        "service",
        "service NAME PRINCIPAL HOST partitions N [retries new|deletes first|not idempotent|separate|visible late] [by COLUMN] [replacement TEXT] [placement TEXT]",
    ),
    (
        "consumer",
        "consumer NAME PRINCIPAL HOST group GROUP max N [start latest] [commits before|no dedup] [reads TOPIC:PARTITION ..]",
    ),
    ("journal", "journal"),
    ("law", "law SERVICE CONSUMER"),
    ("check", "check SERVICE CONSUMER"),
    (
        "expect",
        "expect SERVICE CONSUMER delivered all|lost ID|order",
    ),
];

/// The steps of services.
pub(crate) static SERVICE_STEPS: [(&str, &str); 8] = [
    (
        "record",
        "NAME record ID AGGREGATETYPE AGGREGATEID TYPE PAYLOAD KIND KEY STATE [crash|late]",
    ),
    ("tick", "NAME tick [lose-request|lose-reply]"),
    ("run", "NAME run"),
    ("restart", "NAME restart"),
    ("sweep", "NAME sweep"),
    ("outbox", "NAME outbox"),
    ("business", "NAME business KIND KEY"),
    ("visible", "NAME visible"),
];

/// The steps of consumers.
pub(crate) static CONSUMER_STEPS: [(&str, &str); 4] = [
    ("tick", "NAME tick [lose-request|lose-reply]"),
    ("run", "NAME run"),
    ("restart", "NAME restart"),
    ("inbox", "NAME inbox"),
];

/// The form of a line that has this word at its place, if there is one.
fn form_in(forms: &'static [(&'static str, &'static str)], word: &[u8]) -> Option<&'static str>
    ensures { option_map (λ form. form.now) result
        ≡ form_in (map (λ form. (form.0.now, form.1.now)) forms.now) word.now }
{
    for form in forms {
        if form.0.as_bytes() == word {
            return Some(form.1);
        }
    }
    None
}

fn is_in(forms: &[(&str, &str)], word: &[u8]) -> bool
    ensures { result ≡ list_any (λ form. bytes_eq form.0.now word.now) forms.now }
{
    forms.iter().any(|form| form.0.as_bytes() == word)
}

/// Whether a word is the name of a command.
#[tactic(auto, unfolding(crate::specs::Commands::is_command))]
pub(crate) fn is_command(word: &[u8]) -> bool
    ensures { result ≡ is_command word.now }
{
    is_in(&REQUESTS, word)
}

/// The form of a question whether a request may be made that has this command.
#[tactic(auto, unfolding(crate::specs::Forms::request_form, crate::specs::Forms::request_forms))]
pub(crate) fn request_form(command: &[u8]) -> Option<&'static str>
    ensures { option_map (λ form. form.now) result ≡ request_form command.now }
{
    form_in(&REQUESTS, command)
}

/// The form of a setting, a declaration, or a line that prints, by the word that it begins with.
#[tactic(auto, unfolding(crate::specs::Forms::line_forms))]
pub(crate) fn keyword_form(word: &[u8]) -> Option<&'static str>
    ensures { option_map (λ form. form.now) result ≡ form_in line_forms word.now }
{
    form_in(&LINES, word)
}

/// The form of a line whose step has this name, if there is such a step.
#[tactic(auto, unfolding(crate::specs::Forms::service_forms, crate::specs::Forms::consumer_forms))]
pub(crate) fn form_of_step(name: &[u8]) -> Option<&'static str>
    ensures { option_map (λ form. form.now) result ≡ form_of_step name.now }
{
    match form_in(&SERVICE_STEPS, name) {
        Some(form) => Some(form),
        None => form_in(&CONSUMER_STEPS, name),
    }
}

/// The form of a request, which is that of its question without `may`, or of a step.
fn request_or_step(words: &[&[u8]]) -> &'static str
    ensures { result.now ≡ request_or_step (map (λ word. word.now) words.now) }
{
    if word_at(words, 0).contains(&b':') {
        return match request_form(word_at(words, 2)) {
            Some(form) => form.strip_prefix("may ").unwrap_or(form),
            None => "PRINCIPAL HOST COMMAND ..",
        };
    }
    match form_of_step(word_at(words, 1)) {
        Some(form) => form,
        None => "PRINCIPAL HOST COMMAND .. or NAME STEP ..",
    }
}

/// The form of a line, by the word that says what it is: the command of a request, the first word
/// of a declaration or a setting, or the word after a worker's name. If that is no step of the
/// worker, it is the form of such a worker's steps. The general form if there is no such word.
pub(crate) fn form_of(words: &[&[u8]], stepping: Option<WorkerKind>) -> &'static str
    ensures { result.now ≡ form_of stepping (map (λ word. word.now) words.now) }
{
    match stepping {
        Some(WorkerKind::Service) =>
            "a step of a service: record, tick, run, restart, sweep, outbox or business; with visible late also visible",
        Some(WorkerKind::Consumer) => "a step of a consumer: tick, run, restart or inbox",
        None => match keyword_form(word_at(words, 0)) {
            Some(form) => form,
            None => request_or_step(words),
        },
    }
}
