//! Scripts that fill a broker to its limits: each asks for one thing more than the limit, and then
//! for one that is possible.

use crate::no_allocation::READY;
use kob_script_run::run_text;
use std::alloc::Global;
use std::process::Abort;

/// A script with a line for each number up to the limit, the number between two pieces, and the
/// last lines.
fn script(
    rt: &impl Abort,
    alloc: Global,
    limit: u32,
    (before, after): (&str, &str),
    last: &str,
) -> String {
    let mut script = String::new(alloc);
    script.push_str("super User:r\n").expect(rt, READY);
    for number in 0..=limit {
        let line = format!(in alloc; "User:r h {before}{number}{after}\n").expect(rt, READY);
        script.push_str(line.as_str()).expect(rt, READY);
    }
    script.push_str(last).expect(rt, READY);
    script
}

/// The output of a script ends with this text.
fn ends_with(rt: &impl Abort, alloc: Global, script: &str, end: &str) {
    let mut written = Vec::new(alloc);
    run_text(alloc, &mut script.as_bytes(), &mut written).expect(rt, "an output");
    assert!(rt; written.as_slice().ends_with(end.as_bytes()));
}

#[test]
fn ten_thousand_topics_fill_a_broker(rt: HostRuntime) {
    let last = "User:r h delete-topic t0\nUser:r h create-topic t10000 1\n";
    let end = "\n10000 ok created\n10001 refused 42 INVALID_REQUEST TooManyTopics\n\
         10002 ok deleted\n10003 ok created\n";
    let script = script(&rt, rt.alloc(), 10_000, ("create-topic t", " 1"), last);
    ends_with(&rt, rt.alloc(), script.as_str(), end);
}

#[test]
fn hundred_thousand_bindings_fill_a_broker(rt: HostRuntime) {
    let line = ("create-acl allow User:a * Read Topic prefixed t", "");
    let last = "User:r h create-acl allow User:a * Read Topic prefixed t0\n";
    let end = "\n100000 ok serials 100000\n100001 refused 42 INVALID_REQUEST TooManyBindings\n\
         100002 ok serials 1\n";
    let script = script(&rt, rt.alloc(), 100_000, line, last);
    ends_with(&rt, rt.alloc(), script.as_str(), end);
}
