//! Names: the first rule that a text breaks, and texts that are stored inline and in allocations of
//! their own.

use crate::no_allocation::READY;
use kob_names::{PlainValue, Principal, PrincipalFault, Text, TopicName, TopicNameFault};
use std::alloc::{AllocError, Global};
use std::hash::{DefaultHasher, Hash, Hasher};
use std::process::Abort;

const PRINCIPALS: [(&str, PrincipalFault); 3] = [
    ("alice", PrincipalFault::NoColon),
    ("Group:x", PrincipalFault::NotUser),
    ("User:", PrincipalFault::Empty),
];

const TOPICS: [(&str, TopicNameFault); 3] = [
    ("", TopicNameFault::Empty),
    ("..", TopicNameFault::Dots),
    ("a b", TopicNameFault::BadByte(1)),
];

// Each of the texts is refused for its fault.
#[test]
fn parse_rules(rt: HostRuntime) {
    for (text, fault) in PRINCIPALS {
        let refused = Principal::parse(rt.alloc(), text).err();
        assert!(rt; refused == Some(fault), "{text}");
    }
    for (text, fault) in TOPICS {
        let refused = TopicName::parse(rt.alloc(), text).err();
        assert!(rt; refused == Some(fault), "{text}");
    }
}

/// A character, and how often it is in a text: up to 30 bytes, and more.
const REPEATED: [(&str, usize); 8] = [
    ("a", 0),
    ("a", 1),
    ("a", 29),
    ("a", 30),
    ("a", 31),
    ("a", 200),
    ("é", 15),
    ("é", 16),
];

/// The hash of a text under fixed keys.
fn hashed(text: &Text) -> u64 {
    let mut hasher = DefaultHasher::new();
    text.hash(&mut hasher);
    hasher.finish()
}

/// A copy of a copy of the content.
pub(crate) fn copied_twice(alloc: Global, content: &str) -> Result<Text, AllocError> {
    Text::copied(alloc, content)?.copy(alloc)
}

/// A copy of a copy of the content and the string itself hold it, and are equal and hashed alike.
fn is_held(rt: &impl Abort, alloc: Global, content: &str) {
    let copied = copied_twice(alloc, content).expect(rt, "a copy");
    let string = String::from_str(alloc, content).expect(rt, READY);
    let other = Text::from_string(string);
    let hold = copied.as_str() == content
        && other.as_str() == content
        && copied.len() == content.len();
    let are_alike = copied == other && copied.same(&other) && hashed(&copied) == hashed(&other);
    assert!(rt; hold && are_alike, "{content}");
}

#[test]
fn each_length_is_held(rt: HostRuntime) {
    for (character, times) in REPEATED {
        let content = character.repeat(rt.alloc(), times).expect(&rt, READY);
        is_held(&rt, rt.alloc(), content.as_str());
    }
}

/// The text prints as a struct that holds a string.
fn prints(rt: &impl Abort, alloc: Global, text: &Text) {
    let printed = format!(in alloc; "{text:?}").expect(rt, READY);
    assert_eq!(rt; printed.as_str(), "Text { content: \"a\\n\\\"b\\\"\" }");
}

#[test]
fn a_text_is_printed(rt: HostRuntime) {
    let alloc = rt.alloc();
    let copied = Text::copied(alloc, "a\n\"b\"").expect(&rt, READY);
    prints(&rt, alloc, &copied);
    let taken_over = String::from_str(alloc, "a\n\"b\"").expect(&rt, READY);
    prints(&rt, alloc, &Text::from_string(taken_over));
}
