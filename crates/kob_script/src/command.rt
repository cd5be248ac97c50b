//! The table of commands: their names, and the words that each takes.

ghost use Rattle.std.specs.Prelude.{◌≡◌, bytes_eq, find, option_copied, option_map};
ghost use Rattle.kob_script.specs.CommandLines.{command_name, command_named, row, row_named};

/// What a word writes.
#[derive(Clone, Copy, Debug, PartialEq, Eq)]
pub enum Slot {
    /// A name in UTF-8.
    Text,
    Principal,
    Host,
    /// Decimal digits of a number of 64 bits.
    Number,
    /// `-2` or `-1`.
    StartOrEnd,
    /// A number or `-1`.
    OffsetOrEnd,
    /// `-` or `ID:EPOCH:BASE`.
    Producer,
    Permission,
    Operation,
    Resource,
    Pattern,
    /// A pattern, `match`, `any`, or `-` for `any`.
    FilterPattern,
}

/// The words that are at a place of a row.
#[derive(Clone, Copy, Debug, PartialEq, Eq)]
pub enum Place {
    One(Slot),
    /// One word, or `-` for ANY.
    OrDash(Slot),
    /// One word, or none.
    OrNone(Slot),
    /// All words that are left, each a record.
    Records,
    /// All words that are left, each a text.
    Texts,
}

/// What a line asks for. `acl` is not one of these: it may ask for any number of requests.
#[derive(Clone, Copy, Debug, PartialEq, Eq)]
pub enum Command {
    CreateTopic,
    DeleteTopic,
    Metadata,
    Produce,
    Fetch,
    ListOffsets,
    DeleteRecords,
    InitProducer,
    Commit,
    Committed,
    Groups,
    DeleteGroup,
    CreateAcl,
    DescribeAcls,
    DeleteAcls,
}

fn name(command: Command) -> &'static str
    ensures { result.now ≡ command_name command }
{
    match command {
        Command::CreateTopic => "create-topic",
        Command::DeleteTopic => "delete-topic",
        Command::Metadata => "metadata",
        Command::Produce => "produce",
        Command::Fetch => "fetch",
        Command::ListOffsets => "list-offsets",
        Command::DeleteRecords => "delete-records",
        Command::InitProducer => "init-producer",
        Command::Commit => "commit",
        Command::Committed => "committed",
        Command::Groups => "groups",
        Command::DeleteGroup => "delete-group",
        Command::CreateAcl => "create-acl",
        Command::DescribeAcls => "describe-acls",
        Command::DeleteAcls => "delete-acls",
    }
}

/// The command of that name, in lower case only.
pub fn command_named(word: &[u8]) -> Option<Command>
    ensures { result ≡ command_named word.now }
{
    // Those that most lines have come first.
    let commands = [
        Command::Produce,
        Command::Fetch,
        Command::Commit,
        Command::Committed,
        Command::CreateTopic,
        Command::DeleteTopic,
        Command::Metadata,
        Command::ListOffsets,
        Command::DeleteRecords,
        Command::InitProducer,
        Command::Groups,
        Command::DeleteGroup,
        Command::CreateAcl,
        Command::DescribeAcls,
        Command::DeleteAcls,
    ];
    command_among(&commands, word).copied()
}

fn command_among<'c>(commands: &'c [Command], word: &[u8]) -> Option<&'c Command>
    ensures { option_copied result
        ≡ find (λ command. bytes_eq word.now (command_name command)) commands.entry.now }
{
    commands
        .iter()
        .find(|command| word == name(**command).as_bytes())
}

const FILTER: [Place; 7] = [
    Place::OrDash(Slot::Resource),
    Place::OrDash(Slot::Text),
    Place::One(Slot::FilterPattern),
    Place::OrDash(Slot::Principal),
    Place::OrDash(Slot::Host),
    Place::OrDash(Slot::Operation),
    Place::OrDash(Slot::Permission),
];

/// The words after a command, in their order.
fn row(command: Command) -> &'static [Place]
    ensures { result.now ≡ row command }
{
    use Place::{One, OrNone, Records};
    use Slot::{Host, Number, Principal, Text};
    match command {
        Command::CreateTopic => &[One(Text), One(Number)],
        Command::DeleteTopic => &[One(Text)],
        Command::Metadata => &[OrNone(Text)],
        Command::Produce => &[One(Text), One(Number), One(Slot::Producer), Records],
        Command::Fetch => &[One(Text), One(Number), One(Number), One(Number)],
        Command::ListOffsets => &[One(Text), One(Number), One(Slot::StartOrEnd)],
        Command::DeleteRecords => &[One(Text), One(Number), One(Slot::OffsetOrEnd)],
        Command::InitProducer => &[],
        Command::Commit => &[One(Text), One(Text), One(Number), One(Number)],
        Command::Committed => &[One(Text), One(Text), One(Number)],
        Command::Groups => &[],
        Command::DeleteGroup => &[One(Text)],
        Command::CreateAcl => &[
            One(Slot::Permission),
            One(Principal),
            One(Host),
            One(Slot::Operation),
            One(Slot::Resource),
            One(Slot::Pattern),
            One(Text),
        ],
        Command::DescribeAcls => &FILTER,
        Command::DeleteAcls => &FILTER,
    }
}

/// The words after the command of that name, if there is such a command.
pub fn row_named(name: &[u8]) -> Option<&'static [Place]>
    ensures { option_map (λ places. places.now) result ≡ row_named name.now }
{
    if name == b"acl".as_slice() {
        return Some(&[Place::Texts]);
    }
    Some(row(command_named(name)?))
}
