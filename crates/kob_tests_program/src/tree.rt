//! The prefix tree: nodes that are split at each byte, all keys that begin with a text, many
//! serials, a key that is longer than any stack of calls is deep, and out of memory.

use crate::no_allocation::READY;
use kob_prefix_tree::{PatternKind, PrefixTree};
use std::alloc::Global;
use std::process::Abort;

/// More bytes than two nodes hold.
const LONG: &[u8] = b"abcdefghijklmnopqrstuvwxyzABCDEFGHIJKLMNOPQRSTUVWXYZ";

/// Puts a serial on each prefix of the long key, the longest first, so that each splits a node.
fn put_beginnings(rt: &impl Abort, alloc: Global, tree: &mut PrefixTree) {
    for length in (0..=LONG.len()).rev() {
        let (key, serial) = (&LONG[..length], length as u64);
        let prepared = tree.prepare_add(alloc, key, PatternKind::Prefixed, serial);
        tree.commit_add(prepared.expect(rt, READY));
    }
}

/// Whether each prefix is removed once, the shortest one first, and the longer ones stay.
fn lets_beginnings_go(tree: &mut PrefixTree) -> bool {
    for length in 0..=LONG.len() {
        let (key, serial) = (&LONG[..length], length as u64);
        let is_gone = tree.remove(key, PatternKind::Prefixed, serial);
        let again = tree.remove(key, PatternKind::Prefixed, serial);
        if !is_gone || again || !tree.walk(LONG).eq(serial + 1..53) {
            return false;
        }
    }
    tree.levels(LONG) == 1
}

#[test]
fn keys_end_at_each_byte_of_a_node(rt: HostRuntime) {
    let mut tree = PrefixTree::new();
    put_beginnings(&rt, rt.alloc(), &mut tree);
    assert!(rt; tree.walk(LONG).eq(0..53));
    assert!(rt; tree.levels(b"abcdefgx") == 8);
    assert!(rt; lets_beginnings_go(&mut tree));
}

/// The serials of the keys that begin with a text, in order.
fn serials_below(rt: &impl Abort, alloc: Global, tree: &PrefixTree, text: &[u8]) -> Vec<u64> {
    let mut serials = tree.below(alloc, text).expect(rt, READY);
    serials.sort_unstable();
    serials
}

#[test]
fn all_keys_that_begin_with_a_text(rt: HostRuntime) {
    let alloc = rt.alloc();
    let mut tree = PrefixTree::new();
    put_beginnings(&rt, alloc, &mut tree);
    tree.add(alloc, b"abcX", PatternKind::Literal, 100)
        .expect(&rt, READY);
    assert!(rt;
        serials_below(&rt, alloc, &tree, &LONG[..50])
            .into_iter()
            .eq(50..53)
    );
    assert!(rt;
        serials_below(&rt, alloc, &tree, b"abcX")
            .into_iter()
            .eq(100..101)
    );
    assert!(rt;
        serials_below(&rt, alloc, &tree, b"")
            .into_iter()
            .eq((0..53).chain(100..101))
    );
    assert!(rt; serials_below(&rt, alloc, &tree, b"abX").is_empty());
}

#[test]
fn many_serials_on_one_key(rt: HostRuntime) {
    let mut tree = PrefixTree::new();
    for serial in 0..100_000u64 {
        let added = tree.add(rt.alloc(), b"events", PatternKind::Prefixed, serial);
        added.expect(&rt, READY);
    }
    assert!(rt; tree.walk(b"events-of-today").eq(0..100_000));
}

/// Puts three serials on the key, in one step and in two.
fn put_three(rt: &impl Abort, alloc: Global, tree: &mut PrefixTree, key: &[u8]) {
    let kind = PatternKind::Literal;
    tree.add(alloc, key, kind, 1).expect(rt, READY);
    tree.add(alloc, key, kind, 2).expect(rt, READY);
    let prepared = tree.prepare_add(alloc, key, kind, 3);
    tree.commit_add(prepared.expect(rt, READY));
}

/// Whether the tree has the three and removes them.
fn lets_three_go(tree: &mut PrefixTree, key: &[u8]) -> bool {
    tree.literal(key).eq(1..4)
        && tree.levels(key) == 1_000_001
        && tree.remove(key, PatternKind::Literal, 2)
        && tree.remove_all(key, PatternKind::Literal, &[1, 3])
        && tree.levels(key) == 1
}

#[test]
fn a_key_of_a_million_bytes_comes_and_goes(rt: HostRuntime) {
    let alloc = rt.alloc();
    let key = vec![in alloc; b'k'; 1_000_000].expect(&rt, READY);
    let mut tree = PrefixTree::new();
    put_three(&rt, alloc, &mut tree, &key);
    assert!(rt; lets_three_go(&mut tree, &key));
}

/// Three additions, of which the last splits a node. Wherever an allocation was refused, the tree is
/// as it was before that addition; run with each allocation refused in turn.
#[test]
fn refused_addition_leaves_the_tree(rt: HostRuntime) {
    let mut tree = PrefixTree::new();
    let (alloc, prefixed) = (rt.alloc(), PatternKind::Prefixed);
    let first = tree.add(alloc, b"ab", prefixed, 1).is_ok();
    let second = tree.add(alloc, b"abcd", prefixed, 2).is_ok();
    let third = tree.add(alloc, b"abc", PatternKind::Literal, 3).is_ok();
    let mut walk = tree.walk(b"abcd");
    let walked = (walk.next(), walk.next(), walk.next());
    let expected = match (first, second) {
        (true, true) => (Some(1), Some(2), None),
        (true, false) => (Some(1), None, None),
        (false, true) => (Some(2), None, None),
        (false, false) => (None, None, None),
    };
    let has_third = tree.literal(b"abc").eq([3]);
    let has_second = tree.levels(b"abcd") == 5;
    assert!(rt; walked == expected && has_third == third && has_second == second);
}
