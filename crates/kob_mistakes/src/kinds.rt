//! The kinds of questions, and which one a word may mean.

ghost use Rattle.std.specs.Prelude.{◌≡◌, IfOk, bytes_eq, find, option_copied};
ghost use Rattle.kob_mistakes.specs.Kinds.{begins_question, is_alone, kind_form, kind_name};
ghost use Rattle.kob_mistakes.specs.Kinds.{kind_named, meant_by};

use crate::spelling::nearest;
use std::alloc::{AllocError, Global};

/// A kind of question, by the word that it begins with.
#[derive(Clone, Copy)]
pub enum Kind {
    May,
    Expect,
    Who,
    Rights,
    Sees,
    Topic,
    Summary,
    Unused,
    Shadowed,
    Removable,
}

/// The kinds.
pub(crate) const KINDS: [Kind; 10] = [
    Kind::May,
    Kind::Expect,
    Kind::Who,
    Kind::Rights,
    Kind::Sees,
    Kind::Topic,
    Kind::Summary,
    Kind::Unused,
    Kind::Shadowed,
    Kind::Removable,
];

impl Kind {
    /// The word that a question of this kind begins with.
    pub fn name(self) -> &'static str
        ensures { result.now ≡ kind_name self }
    {
        match self {
            Kind::May => "may",
            Kind::Expect => "expect",
            Kind::Who => "who",
            Kind::Rights => "rights",
            Kind::Sees => "sees",
            Kind::Topic => "topic",
            Kind::Summary => "summary",
            Kind::Unused => "unused",
            Kind::Shadowed => "shadowed",
            Kind::Removable => "removable",
        }
    }

    /// Whether a question of this kind has no other word.
    pub fn is_alone(self) -> bool
        ensures { result ≡ is_alone self }
    {
        match self {
            Kind::May | Kind::Expect | Kind::Who | Kind::Rights | Kind::Sees | Kind::Topic => false,
            Kind::Summary | Kind::Unused | Kind::Shadowed | Kind::Removable => true,
        }
    }

    /// The form of such a question.
    #[tactic(auto, unfolding(crate::specs::Kinds::kind_form))]
    pub(crate) fn form(self) -> &'static str
        ensures { result.now ≡ kind_form self }
    {
        match self {
            Kind::May =>
                "may PRINCIPAL HOST OPERATION RESOURCE NAME, or produce TOPIC, or consume TOPIC GROUP, or a request",
            Kind::Expect => "expect yes or expect no, and then may ..",
            Kind::Who =>
                "who OPERATION RESOURCE [prefix] NAME, or NAME HOST, or produce TOPIC, or consume TOPIC GROUP",
            Kind::Rights => "rights PRINCIPAL [HOST]",
            Kind::Sees => "sees PRINCIPAL HOST",
            Kind::Topic => "topic NAME",
            Kind::Summary => "summary",
            Kind::Unused => "unused",
            Kind::Shadowed => "shadowed",
            Kind::Removable => "removable",
        }
    }
}

/// The kind of question that begins with a word, in lower case only.
pub(crate) fn kind_named(word: &[u8]) -> Option<Kind>
    ensures { result ≡ kind_named word.now }
{
    kind_among(KINDS.as_slice(), word).copied()
}

fn kind_among<'k>(kinds: &'k [Kind], word: &[u8]) -> Option<&'k Kind>
    ensures { option_copied result
        ≡ find (λ kind. bytes_eq word.now (kind_name kind)) kinds.entry.now }
{
    kinds.iter().find(|kind| word == kind.name().as_bytes())
}

/// Whether a word begins a question.
pub fn begins_question(word: &[u8]) -> bool
    ensures { result ≡ begins_question word.now }
{
    kind_named(word).is_some()
}

/// What a word of the command line means that names no file that can be read.
#[derive(Clone, Copy)]
pub enum Meant {
    /// A file.
    File,
    /// The first word of a question, whose other words are apart from it.
    Words,
    /// The first word of a question of this kind, misspelt.
    Misspelt(Kind),
}

/// What a word means that names no file that can be read: the first word of a question, or, if there
/// is no such file, the word that is near to the first word of one.
pub fn meant_by(alloc: Global, word: &str, is_missing: bool) -> Result<Meant, AllocError>
    ensures { IfOk result (λ meant. meant ≡ meant_by word.now is_missing) }
{
    if begins_question(word.as_bytes()) || word == "log" {
        return Ok(Meant::Words);
    }
    if !is_missing {
        return Ok(Meant::File);
    }
    let names = [
        Kind::May.name(),
        Kind::Expect.name(),
        Kind::Who.name(),
        Kind::Rights.name(),
        Kind::Sees.name(),
        Kind::Topic.name(),
        Kind::Summary.name(),
        Kind::Unused.name(),
        Kind::Shadowed.name(),
        Kind::Removable.name(),
    ];
    let Some(name) = nearest(alloc, word, names.as_slice())? else {
        return Ok(Meant::File);
    };
    match kind_named(name.as_str().as_bytes()) {
        Some(kind) => Ok(Meant::Misspelt(kind)),
        None => Ok(Meant::File),
    }
}
