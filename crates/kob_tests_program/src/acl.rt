//! The administrators' command line: which word a fault names, and what is printed of bindings.

use crate::no_allocation::READY;
use kob_acl_cli::{CommandFault, commands_of, print_list, read_line};
use kob_broker::Broker;
use kob_rights::{Body, Reply};
use kob_script::{Script, read_script};
use std::alloc::Global;
use std::process::Abort;

/// Lines of which some words are not valid, in another order than that of their options, and the
/// first of these.
const MISREAD: [(&str, &str); 7] = [
    (
        "--list --resource-pattern-type x --principal p --operation o --deny-host= --deny-principal d",
        "d",
    ),
    (
        "--list --resource-pattern-type x --principal p --operation o --deny-host=",
        "",
    ),
    (
        "--list --resource-pattern-type x --principal p --operation o",
        "o",
    ),
    ("--list --resource-pattern-type x --principal p", "p"),
    ("--list --resource-pattern-type x", "x"),
    ("--add --topic t --allow-principal alice", "alice"),
    ("--add --operation fly --allow-host h", "fly"),
];

/// The line's fault names that word.
fn names(rt: &impl Abort, alloc: Global, line: &str, word: &str) {
    let words: Vec<&str> = line
        .split_ascii_whitespace()
        .collect(alloc)
        .expect(rt, READY);
    let args = read_line(alloc, words.as_slice()).expect(rt, READY);
    let found = commands_of(alloc, &args);
    let is_named = matches!(&found, Err(CommandFault::BadName(found)) if found.as_str() == word);
    assert!(rt; is_named, "{line}");
}

#[test]
fn the_first_misread_word_is_named(rt: HostRuntime) {
    for (line, word) in MISREAD {
        names(&rt, rt.alloc(), line, word);
    }
}

const REMOVED: &str = "super User:root
User:root h acl --add --allow-principal User:a --producer --consumer --topic t --group g
User:root h acl --remove --topic t
";

const LINES: &str = "binding 1 ALLOW User:a * Write Topic LITERAL t
binding 2 ALLOW User:a * Describe Topic LITERAL t
binding 3 ALLOW User:a * Create Topic LITERAL t
binding 4 ALLOW User:a * Read Topic LITERAL t
";

#[test]
fn removed_bindings_are_printed(rt: HostRuntime) {
    let alloc = rt.alloc();
    let Script { settings, events } = read_script(alloc, REMOVED.as_bytes()).expect(&rt, READY);
    let mut broker = Broker::open(alloc, settings).expect(&rt, READY);
    let replies = broker.run(alloc, events.as_slice()).expect(&rt, READY);
    let Some(Reply::Done(Body::Bindings(found))) = replies.last() else {
        panic!(rt; "not bindings");
    };
    let printed = print_list(alloc, found.as_slice()).expect(&rt, "lines");
    assert_eq!(rt; printed.as_str(), LINES);
}
