//! The pages of help.

ghost use Rattle.std.specs.Prelude.{◌≡◌};
ghost use Rattle.std.specs.Option.{option_map};
ghost use Rattle.kob.specs.Pages.{page_on};

/// The general page.
pub static HELP: &str = "\
Kafka's access rules and the transactional outbox, tried with a proved broker.

usage: kob play [OPTION]... [FILE]...  plays scenes and scripts; - or none: standard input
       kob export [OPTION]... [FILE]...
                                       prints the final state of scenes for Kafka and Debezium
       kob policy [OPTION]... [QUESTION]...
                                       answers questions about access rules
       kob topic ROWS RECORDS          compares the records of a topic with the rows of an outbox
       kob help [SUBJECT]              prints a page: play, export, policy, topic or scene
       kob -V, --version               prints the version, the commit, and whether it is proved

Status: 0 all was done, 1 a fault, or something could not be read or written, 2 out of memory,
3 an answer changes or is not the one that was expected, or something is wrong with a topic.
";

/// The page on `kob play`.
pub static HELP_PLAY: &str = "\
Plays scenes: scripts with services, consumers and their steps.

usage: kob play [--trace | --json] [FILE]...

  FILE              plays FILE; - or none: standard input. With several, == FILE comes before each
  --trace           prints > and each line before its answers, and what a request lacked;
                    the default on a terminal
  --json            prints an object for each line of an answer, with the line of the scene
  -h, --help        prints this page; kob help scene prints the language of scenes

Each answer has its number. A text with a fault prints only fault line LINE KIND; standard error has
the line and the word. Status: 0 all was played, 1 a fault, or a read or a write failed, 2 out of
memory, 3 something that a scene expects is not so; standard error then has the line of the first.
";

/// The page on `kob export`.
pub static HELP_EXPORT: &str = "\
Prints the final state of scenes: the settings, topics and bindings that the requests leave, as
server.properties, kafka-topics and kafka-acls, and the route of each service for Debezium.

usage: kob export [--connect DATABASE [--service NAME] | --table DATABASE] [FILE]...

  FILE              exports FILE; - or none: standard input. With several, == FILE comes before each
  --connect DATABASE    prints a document for Kafka Connect for the service of a scene, and nothing
                    else; DATABASE is postgresql or mysql
  --service NAME    with --connect: of several services this one; one call for each
  --table DATABASE  prints the CREATE TABLE of the outbox table, and nothing else
  -h, --help        prints this page

A document has the service's name as the name of its connector, of its topics' prefix, and in
PostgreSQL of its slot and publication, or <SLOT_NAME> where PostgreSQL takes no such name. Services
of one database also need a table each: change table.include.list.
A variant of a service is not exported; standard error names it.

Status: 0 all was exported, 1 a fault, several services and no --service, or a read or a write
failed, 2 out of memory.
";

/// The page on `kob policy`.
pub static HELP_POLICY: &str = "\
Answers questions about access rules: who may do what, and by which binding.

usage: kob policy [FILE]... [--skip] [QUESTION]...
       kob policy --before FILE --after FILE [FILE]... [QUESTION]...

  FILE              a list: a word without a blank that is no question
  --policy FILE     the same, whatever its name is: bindings and settings, in order; - or none: standard input
  --questions FILE  questions, one on a line; repeated
  --topics FILE     names of topics, one on a line; repeated
  --before FILE     prints what changes from these bindings ..; repeated
  --after FILE      .. to these; questions are answered by these; repeated; --policy counts for both
  --log FILE        as the question log FILE; repeated
  --commands        prints the lines of kafka-acls that lead from --before to --after, and nothing
                    else: no right that both grant is missing on the way
  --kafka VERSION   the release of the brokers, as 2.7; the newest if none is given
  --skip            continues after bindings that are left out
  --json            prints an object for each answer and for each change, on a line of its own
  --csv             prints the answer to one question, or what changes, as a table (RFC 4180);
                    may and expect have none
  --next            begins another list with its questions; == FILE comes before each
  -h, --help        prints this page

A list has lines of kafka-acls --list (1.x, 2.x and 3.x), kafka-acls --add .., lines
create-acl and acl of scripts, rows of CSV with seven columns, super USER, everyone on or off,
kafka VERSION, and the lines of a broker's server.properties; or it is what confluent kafka acl list
-o json prints. Lines that begin with # are skipped.

Questions, each one word of the command line or one line; a name with a blank stands in quotes:
  may PRINCIPAL HOST OPERATION RESOURCE NAME
  may PRINCIPAL HOST produce TOPIC [idempotent|transactional ID]
  may PRINCIPAL HOST consume TOPIC GROUP
  may PRINCIPAL HOST REQUEST ..         a request as in a script
  expect yes|no may ..                  the same, and whether it is as expected
  who OPERATION RESOURCE NAME           super users, and each principal and host that is granted
  who OPERATION RESOURCE NAME HOST      yes or no for each principal that a binding names
  who OPERATION RESOURCE prefix NAME    who may on all names, or on some, that begin so
  who produce TOPIC                     as who Write Topic TOPIC
  who consume TOPIC GROUP               who may read the topic, then who may read the group
  rights PRINCIPAL [HOST]               what it may do, by names, and by hosts without a HOST
  sees PRINCIPAL HOST                   the topics that it may describe
  topic NAME                            a topic for sees, in place of those of the list
  summary                               how many of each there are; asked if nothing else is
  unused                                bindings that no answer needs, and why
  removable                             bindings that may be deleted together
  shadowed                              allows that a deny always beats
  log FILE                              accesses of a broker's kafka-authorizer.log that are now
                                        decided otherwise, and bindings that decide none of them

Status: 0 all was answered, 1 a fault, bindings that are left out without --skip, or a read or a
write failed, 2 out of memory, 3 an answer changes or is not as expected, or an access of a log is
decided otherwise. docs/POLICY.md has an example.
";

/// The page on `kob topic`.
pub static HELP_TOPIC: &str = "\
Compares the records of a topic with the rows of an outbox: prints how many there are, and a line for
each event that is missing, doubled, unknown, out of order or in another partition.

usage: kob topic ROWS RECORDS

  ROWS              rows in the order in which they were recorded, one on a line: ID,KEY, or with a
                    tab between; ID is the event's UUID, KEY the key of its record
  RECORDS           records, one on a line, as kafka-console-consumer prints them with
                    print.partition, print.offset and print.headers: Partition:PARTITION,
                    Offset:OFFSET and headers with id:ID, tabs between
  -h, --help        prints this page

- is standard input. Status: 0 nothing is wrong, 1 a fault, or a read or a write failed, 2 out of
memory, 3 something is wrong.
";

/// The page on the language of scenes and scripts.
pub static HELP_SCENE: &str = "\
A scene has settings first, and then requests, declarations and steps, one on a line. % and two
hexadecimal digits stand for a byte. A line that begins with # is a comment.
  super PRINCIPAL       everyone on|off
  PRINCIPAL HOST REQUEST ..     where REQUEST is one of
    create-topic TOPIC PARTITIONS           delete-topic TOPIC      metadata [TOPIC]
    produce TOPIC PARTITION ID:EPOCH:BASE|- [KEY=]VALUE ..          init-producer
    fetch TOPIC PARTITION OFFSET MAX        list-offsets TOPIC PARTITION -1|-2
    delete-records TOPIC PARTITION OFFSET|-1                        delete-group GROUP
    commit GROUP TOPIC PARTITION OFFSET     committed GROUP TOPIC PARTITION         groups
    create-acl PERMISSION PRINCIPAL HOST OPERATION RESOURCE PATTERN NAME
    describe-acls or delete-acls RESOURCE NAME PATTERN PRINCIPAL HOST OPERATION PERMISSION
    acl OPTION ..                           with the options of kafka-acls
  service NAME PRINCIPAL HOST partitions N
          [retries new|deletes first|not idempotent|separate|visible late]
          [by COLUMN] [replacement TEXT] [placement TEXT]
    NAME record ID AGGREGATETYPE AGGREGATEID TYPE PAYLOAD KIND KEY STATE [crash|late]
    NAME tick [lose-request|lose-reply]     NAME run    NAME restart    NAME sweep    NAME outbox
    NAME business KIND KEY                  NAME visible
  consumer NAME PRINCIPAL HOST group GROUP max N [start latest] [commits before|no dedup]
          [reads TOPIC:PARTITION ..]
    NAME tick [lose-request|lose-reply]     NAME run    NAME restart    NAME inbox
  journal               every request that was served, with its reply
  law SERVICE CONSUMER  whether the theorem of delivery applies to the two
  check SERVICE CONSUMER    which events are delivered, waiting, lost, doubled or misordered
  expect SERVICE CONSUMER delivered all|lost ID|order       status 3 if it is not so
";

/// The page on a subject, the general one for none.
pub fn help_on(subject: &str) -> Option<&'static str>
    ensures { option_map (λ page. page.now) result ≡ page_on subject.now }
{
    match subject {
        "" => Some(HELP),
        "play" => Some(HELP_PLAY),
        "export" => Some(HELP_EXPORT),
        "policy" => Some(HELP_POLICY),
        "topic" => Some(HELP_TOPIC),
        "scene" => Some(HELP_SCENE),
        _ => None,
    }
}
