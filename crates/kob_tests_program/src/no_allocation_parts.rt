//! Second steps of lists, trees and authorizers, which do not allocate: the first steps made all
//! allocations. `.ci/refuse` runs them with every allocation refused from `refuse_from_here` on.

use crate::chunks::put_below;
use crate::names::copied_twice;
use crate::no_allocation::{READY, refuse_from_here};
use kob_authorizer::Authorizer;
use kob_chunks::ChunkList;
use kob_names::{Host, Operation, Principal, ResourceKind, Verdict};
use kob_prefix_tree::{PatternKind, PrefixTree};
use std::alloc::Global;
use std::process::Abort;

fn user(rt: &impl Abort, alloc: Global) -> Principal {
    Principal::parse(alloc, "User:svc").expect(rt, READY)
}

// It grants a super user at once.
#[test]
fn an_authorizer_is_opened(rt: HostRuntime) {
    let alloc = rt.alloc();
    let (root, from) = (user(&rt, alloc), Host::parse(alloc, "h").expect(&rt, READY));
    let supers = vec![in alloc; user(&rt, alloc)].expect(&rt, READY);
    refuse_from_here(alloc);
    let authorizer = Authorizer::open(alloc, supers, false);
    let (write, kind) = (Operation::Write, ResourceKind::Topic);
    let verdict = authorizer.authorize(&root, &from, write, kind, "orders");
    assert!(rt; verdict == Verdict::Super && authorizer.supers().len() == 1);
}

/// Adds a serial, and inserts two that are prepared, in another order, which splits a node.
fn put_three(rt: &impl Abort, alloc: Global, tree: &mut PrefixTree) {
    let kind = PatternKind::Prefixed;
    tree.add(alloc, b"abcd", kind, 1).expect(rt, READY);
    let second = tree.prepare_add(alloc, b"ab", kind, 2).expect(rt, READY);
    let third = tree.prepare_add(alloc, b"ab", kind, 3).expect(rt, READY);
    refuse_from_here(alloc);
    tree.commit_add(third);
    tree.commit_add(second);
}

/// Whether the tree has the three, and removes them.
fn lets_three_go(tree: &mut PrefixTree) -> bool {
    let found = tree.walk(b"abcd").eq([3, 2, 1])
        && tree.listed(b"abcd", PatternKind::Prefixed).eq([1]);
    let gone = tree.remove(b"abcd", PatternKind::Prefixed, 1)
        && !tree.remove_all(b"ab", PatternKind::Literal, &[2])
        && tree.remove_all(b"ab", PatternKind::Prefixed, &[3, 2]);
    found && gone && tree.levels(b"abcd") == 1
}

#[test]
fn a_tree_is_changed(rt: HostRuntime) {
    let mut tree = PrefixTree::new();
    put_three(&rt, rt.alloc(), &mut tree);
    assert!(rt; lets_three_go(&mut tree));
}

/// Whether a list of 255 items takes two more and frees its first chunk.
fn changes_list(rt: &impl Abort, alloc: Global, list: &mut ChunkList<u64>) -> bool {
    put_below(rt, list, 255);
    list.reserve(2).expect(rt, READY);
    refuse_from_here(alloc);
    list.push_reserved(255);
    list.push_reserved(256);
    if list.len() != 257 {
        return false;
    }
    list.drop_front_chunks(1);
    list.get(0) == Some(&256) && list.len() == 1
}

#[test]
fn a_list_is_changed(rt: HostRuntime) {
    let mut list = ChunkList::new(rt.alloc());
    assert!(rt; changes_list(&rt, rt.alloc(), &mut list));
}

// Copies of copies of texts of at most 30 bytes hold them, without an allocation.
#[test]
fn short_texts_are_copied(rt: HostRuntime) {
    refuse_from_here(rt.alloc());
    for content in ["abcdefghijklmnopqrstuvwxyz0123", "ééééééééééééééé", ""] {
        let copy = copied_twice(rt.alloc(), content);
        let is_held = matches!(&copy, Ok(text) if text.as_str() == content);
        assert!(rt; is_held, "{content}");
    }
}
