//! The columns of each answer.

ghost use Rattle.std.specs.Prelude.{◌≡◌};
ghost use Rattle.kob_policy_rows.specs.Columns.{column_name, columns_of, is_table, kind_of};
ghost use Rattle.kob_policy_rows.specs.Columns.{access_columns, binding_columns, change_columns};
ghost use Rattle.kob_policy_rows.specs.Columns.{check_columns};
ghost use Rattle.kob_policy_rows.specs.Columns.{fault_columns, grant_columns, holding_columns};
ghost use Rattle.kob_policy_rows.specs.Columns.{omission_columns, reach_columns, summary_columns};
ghost use Rattle.kob_policy_rows.specs.Columns.{unused_columns};

use kob_policy_text::Question;

/// What a cell of a row is, by the name that stands above it.
#[derive(Clone, Copy)]
pub enum Column {
    Accesses,
    Allowed,
    Answer,
    Binding,
    Bindings,
    By,
    Change,
    Clause,
    Deny,
    Expected,
    Fault,
    File,
    Groups,
    Host,
    Hosts,
    Kind,
    LeftOut,
    Line,
    LogLine,
    Name,
    Named,
    On,
    Operation,
    Otherwise,
    Pattern,
    Permission,
    Prefix,
    Principal,
    Principals,
    Reason,
    Resource,
    Shadowed,
    SkippedLines,
    SuperUsers,
    Taken,
    Topic,
    Topics,
    TransactionalIds,
    Unused,
    What,
}

/// The name of a column.
pub(crate) fn column_name(column: Column) -> &'static str
    ensures { result.now ≡ column_name column }
{
    match column {
        Column::Accesses => "accesses",
        Column::Allowed => "allowed",
        Column::Answer => "answer",
        Column::Binding => "binding",
        Column::Bindings => "bindings",
        Column::By => "by",
        Column::Change => "change",
        Column::Clause => "clause",
        Column::Deny => "deny",
        Column::Expected => "expected",
        Column::Fault => "fault",
        Column::File => "file",
        Column::Groups => "groups",
        Column::Host => "host",
        Column::Hosts => "hosts",
        Column::Kind => "kind",
        Column::LeftOut => "left_out",
        Column::Line => "line",
        Column::LogLine => "log_line",
        Column::Name => "name",
        Column::Named => "named",
        Column::On => "on",
        Column::Operation => "operation",
        Column::Otherwise => "decided_otherwise",
        Column::Pattern => "pattern",
        Column::Permission => "permission",
        Column::Prefix => "prefix",
        Column::Principal => "principal",
        Column::Principals => "principals",
        Column::Reason => "reason",
        Column::Resource => "resource",
        Column::Shadowed => "shadowed",
        Column::SkippedLines => "skipped_lines",
        Column::SuperUsers => "super_users",
        Column::Taken => "taken",
        Column::Topic => "topic",
        Column::Topics => "topics",
        Column::TransactionalIds => "transactional_ids",
        Column::Unused => "unused",
        Column::What => "what",
    }
}

/// A right that `may` needs, and what is decided on it.
fn check_columns() -> &'static [Column]
    ensures { result.now ≡ check_columns }
{
    &[
        Column::Clause,
        Column::Operation,
        Column::Resource,
        Column::Name,
        Column::Answer,
        Column::Reason,
        Column::Binding,
        Column::File,
        Column::Line,
        Column::Taken,
    ]
}

/// Who is granted a right, and by which binding.
fn grant_columns() -> &'static [Column]
    ensures { result.now ≡ grant_columns }
{
    &[
        Column::Operation,
        Column::Resource,
        Column::Name,
        Column::Principal,
        Column::Host,
        Column::Answer,
        Column::Reason,
        Column::Binding,
        Column::File,
        Column::Line,
    ]
}

/// Who is granted a right on the names that begin with a prefix.
fn reach_columns() -> &'static [Column]
    ensures { result.now ≡ reach_columns }
{
    &[
        Column::Operation,
        Column::Resource,
        Column::Prefix,
        Column::Principal,
        Column::Host,
        Column::On,
    ]
}

/// What a principal may do.
fn holding_columns() -> &'static [Column]
    ensures { result.now ≡ holding_columns }
{
    &[
        Column::Principal,
        Column::Host,
        Column::Operation,
        Column::Resource,
        Column::Pattern,
        Column::Name,
        Column::By,
    ]
}

/// A binding, and where it stands.
pub(crate) fn binding_columns() -> &'static [Column]
    ensures { result.now ≡ binding_columns }
{
    &[
        Column::Binding,
        Column::Permission,
        Column::Principal,
        Column::Host,
        Column::Operation,
        Column::Resource,
        Column::Pattern,
        Column::Name,
        Column::File,
        Column::Line,
    ]
}

/// A binding, and why no answer needs it.
fn unused_columns() -> &'static [Column]
    ensures { result.now ≡ unused_columns }
{
    &[
        Column::Binding,
        Column::Permission,
        Column::Principal,
        Column::Host,
        Column::Operation,
        Column::Resource,
        Column::Pattern,
        Column::Name,
        Column::File,
        Column::Line,
        Column::Reason,
        Column::By,
    ]
}

/// An access that a broker recorded, and what is decided on it.
pub(crate) fn access_columns() -> &'static [Column]
    ensures { result.now ≡ access_columns }
{
    &[
        Column::LogLine,
        Column::Principal,
        Column::Host,
        Column::Operation,
        Column::Resource,
        Column::Name,
        Column::Allowed,
        Column::Answer,
        Column::Reason,
        Column::Binding,
        Column::File,
        Column::Line,
    ]
}

/// How many there are of each.
fn summary_columns() -> &'static [Column]
    ensures { result.now ≡ summary_columns }
{
    &[
        Column::Bindings,
        Column::SuperUsers,
        Column::Principals,
        Column::Hosts,
        Column::Topics,
        Column::Groups,
        Column::TransactionalIds,
        Column::LeftOut,
        Column::SkippedLines,
        Column::Unused,
        Column::Shadowed,
    ]
}

/// What changes from one policy to another.
pub fn change_columns() -> &'static [Column]
    ensures { result.now ≡ change_columns }
{
    &[
        Column::Kind,
        Column::Principal,
        Column::Host,
        Column::Operation,
        Column::Resource,
        Column::Pattern,
        Column::Name,
        Column::Change,
    ]
}

/// What is left out.
pub fn omission_columns() -> &'static [Column]
    ensures { result.now ≡ omission_columns }
{
    &[
        Column::Kind,
        Column::File,
        Column::Line,
        Column::What,
        Column::Deny,
    ]
}

/// What is wrong with a text.
pub fn fault_columns() -> &'static [Column]
    ensures { result.now ≡ fault_columns }
{
    &[Column::Kind, Column::File, Column::Line, Column::Fault]
}

/// The columns of the rows of an answer.
pub fn columns_of(question: &Question) -> &'static [Column]
    ensures { result.now ≡ columns_of question.now }
{
    match question {
        Question::May(_) | Question::Expect(_, _) => check_columns(),
        Question::Who(_, _) | Question::WhoConsumes(_, _) => grant_columns(),
        Question::WhoBelow(_) => reach_columns(),
        Question::Rights(_, _) => holding_columns(),
        Question::Sees(_) => &[Column::Topic],
        Question::Summary => summary_columns(),
        Question::Unused => unused_columns(),
        Question::Shadowed | Question::Removable => binding_columns(),
    }
}

/// The word for the kind of a question.
pub(crate) fn kind_of(question: &Question) -> &'static str
    ensures { result.now ≡ kind_of question.now }
{
    match question {
        Question::May(_) => "may",
        Question::Expect(_, _) => "expect",
        Question::Who(_, _) | Question::WhoConsumes(_, _) => "who",
        Question::WhoBelow(_) => "who-prefix",
        Question::Rights(_, _) => "rights",
        Question::Sees(_) => "sees",
        Question::Summary => "summary",
        Question::Unused => "unused",
        Question::Shadowed => "shadowed",
        Question::Removable => "removable",
    }
}

/// Whether the answer is a table. That to `may` and `expect` is a yes or a no.
pub fn is_table(question: &Question) -> bool
    ensures { result ≡ is_table question.now }
{
    match question {
        Question::May(_) | Question::Expect(_, _) => false,
        Question::Who(_, _)
        | Question::WhoConsumes(_, _)
        | Question::WhoBelow(_)
        | Question::Rights(_, _)
        | Question::Sees(_)
        | Question::Summary
        | Question::Unused
        | Question::Shadowed
        | Question::Removable => true,
    }
}
