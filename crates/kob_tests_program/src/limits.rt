//! Groups and topics that are refused by a rule before anything is allocated. `.ci/refuse` runs
//! them with every allocation refused from `refuse_from_here` on.

use crate::no_allocation::{READY, refuse_from_here};
use kob_catalog::{Catalog, CreateFault};
use kob_groups::{CommitFault, GROUP_LIMIT, Groups};
use kob_names::{Text, TopicName};
use std::alloc::Global;
use std::process::Abort;

/// A text whose copies allocate.
const LONG: &str = "longer-than-the-texts-that-stand-in-place";

/// Commits for as many groups as there may be.
fn fill(rt: &impl Abort, alloc: Global, groups: &mut Groups) {
    let topic = Text::copied(alloc, "a").expect(rt, READY);
    for number in 0..GROUP_LIMIT {
        let name = format!(in alloc; "group {number}").expect(rt, READY);
        let group = Text::from_string(name);
        groups.commit(alloc, &group, &topic, 0, 1).expect(rt, READY);
    }
}

#[test]
fn a_group_too_many_is_refused(rt: HostRuntime) {
    let alloc = rt.alloc();
    let mut groups = Groups::new(alloc);
    fill(&rt, alloc, &mut groups);
    let name = Text::copied(alloc, LONG).expect(&rt, READY);
    refuse_from_here(alloc);
    assert_eq!(rt;
        groups.commit(alloc, &name, &name, 0, 1),
        Err(CommitFault::TooMany)
    );
}

/// The creation is refused for this, in two steps and in one.
fn is_refused(
    rt: &impl Abort,
    alloc: Global,
    catalog: &mut Catalog,
    name: TopicName,
    partitions: u64,
    fault: CreateFault,
) {
    let prepared = catalog.prepare_create(alloc, name.as_text(), partitions);
    assert_eq!(rt; prepared.err(), Some(fault));
    assert_eq!(rt; catalog.create(alloc, name, partitions), Err(fault));
}

#[test]
fn broken_rules_are_told(rt: HostRuntime) {
    let alloc = rt.alloc();
    let mut catalog = Catalog::new(alloc);
    let name = TopicName::parse(alloc, LONG).expect(&rt, READY);
    catalog.create(alloc, name, 1).expect(&rt, READY);
    let there = TopicName::parse(alloc, LONG).expect(&rt, READY);
    let other = TopicName::parse(alloc, "another-name-whose-copies-take-memory").expect(&rt, READY);
    refuse_from_here(alloc);
    let (exists, bad) = (CreateFault::Exists, CreateFault::BadPartitions);
    is_refused(&rt, alloc, &mut catalog, there, 1, exists);
    is_refused(&rt, alloc, &mut catalog, other, 0, bad);
}
