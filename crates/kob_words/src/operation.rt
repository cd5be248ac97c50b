//! The words for operations.

ghost use Rattle.std.specs.Prelude.{◌≡◌};
ghost use Rattle.std.specs.Option.{option_copied};
ghost use Rattle.kob_words.specs.Words.{first_named, operation_name, operation_named};

use kob_names::Operation;

/// The name of an operation, as `kafka-acls` writes it.
pub fn operation_name(operation: Operation) -> &'static str
    ensures { result.now ≡ operation_name operation }
{
    match operation {
        Operation::All => "All",
        Operation::Read => "Read",
        Operation::Write => "Write",
        Operation::Create => "Create",
        Operation::Delete => "Delete",
        Operation::Alter => "Alter",
        Operation::Describe => "Describe",
        Operation::ClusterAction => "ClusterAction",
        Operation::DescribeConfigs => "DescribeConfigs",
        Operation::AlterConfigs => "AlterConfigs",
        Operation::IdempotentWrite => "IdempotentWrite",
    }
}

/// The operation of that name, in any ASCII case.
pub fn operation_named(name: &[u8]) -> Option<Operation>
    ensures { result ≡ operation_named name.now }
{
    let operations = [
        Operation::All,
        Operation::Read,
        Operation::Write,
        Operation::Create,
        Operation::Delete,
        Operation::Alter,
        Operation::Describe,
        Operation::ClusterAction,
        Operation::DescribeConfigs,
        Operation::AlterConfigs,
        Operation::IdempotentWrite,
    ];
    operation_among(&operations, name).copied()
}

fn operation_among<'a>(operations: &'a [Operation], name: &[u8]) -> Option<&'a Operation>
    ensures { option_copied result ≡ first_named operation_name operations.now name.now }
{
    operations.iter().find(|operation| name.eq_ignore_ascii_case(operation_name(
        **operation,
    ).as_bytes()))
}
