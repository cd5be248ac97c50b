//! Scripts on a broker that goes on after it ran out of memory. `.ci/refuse` runs them with each
//! allocation refused in turn.

use kob_broker::{Broker, Stopped};
use kob_rights::{Event, Reply};
use kob_script::{Script, print_reply, read_script};
use std::alloc::Global;

/// Prints replies, the first of them with this number.
fn print(text: &mut Vec<u8>, first: u64, replies: &[Reply]) -> Option<()> {
    for (place, reply) in replies.iter().enumerate() {
        print_reply(text, first.saturating_add(place as u64), reply).ok()?;
    }
    Some(())
}

/// Prints the replies to all events: if a run is out of memory, a second one goes on from there.
fn plays(alloc: Global, broker: &mut Broker, events: &[Event], text: &mut Vec<u8>) -> Option<()> {
    let Stopped { done, replies, .. } = match broker.run(alloc, events) {
        Ok(replies) => return print(text, 1, &replies),
        Err(stopped) => stopped,
    };
    print(text, 1, &replies)?;
    let rest = broker.run(alloc, &events[done..]).ok()?;
    print(text, (done as u64).saturating_add(1), &rest)
}

/// Whether this is printed for the replies to a script's events.
fn prints(alloc: Global, script: &str, expected: &str) -> Option<bool> {
    let mut text = Vec::new(alloc);
    let Script { settings, events } = read_script(alloc, script.as_bytes()).ok()?;
    let mut broker = Broker::open(alloc, settings).ok()?;
    plays(alloc, &mut broker, events.as_slice(), &mut text)?;
    Some(text.as_slice() == expected.as_bytes())
}

// One creation of ten bindings, a batch of a new producer across the edge of a chunk, and changes
// of every kind. Then requests that show what is there.
const CHANGES: &str = "super User:root
User:root h create-topic t 1
User:root h acl --add --allow-principal User:a --topic t --topic u --operation Read \
--operation Write --operation Describe --operation Delete --operation Alter
User:root h init-producer
User:root h produce t 0 - \
v v v v v v v v v v v v v v v v v v v v v v v v v v v v v v v v v v v v v v v v v v v v v \
v v v v v v v v v v v v v v v v v v v v v v v v v v v v v v v v v v v v v v v v v v v v v \
v v v v v v v v v v v v v v v v v v v v v v v v v v v v v v v v v v v v v v v v v v v v v \
v v v v v v v v v v v v v v v v v v v v v v v v v v v v v v v v v v v v v v v v v v v v v \
v v v v v v v v v v v v v v v v v v v v v v v v v v v v v v v v v v v v v v v v v v v v v \
v v v v v v v v v v v v v v v v v v v v v v v v v v v v v v
User:root h produce t 0 0:0:0 k=x y z
User:root h fetch t 0 254 4
User:root h commit g t 0 257
User:a h metadata
User:b h produce t 0 - v
User:root h groups
User:a h delete-records t 0 256
User:root h produce t 0 0:0:0 k=x y z
User:root h delete-acls - - - - - Read -
User:a h fetch t 0 256 1
User:root h delete-group g
User:root h committed g t 0
User:root h delete-topic t
User:root h metadata
";

const CHANGED: &str = "1 ok created
2 ok serials 1 2 3 4 5 6 7 8 9 10
3 ok producer 0 0
4 ok offset 0
5 ok offset 255
6 ok records 254:v 255:k=x 256:y 257:z
7 ok committed
8 ok topics t:1
9 denied 29 TOPIC_AUTHORIZATION_FAILED no-allow
10 ok groups g
11 ok start 256
12 ok offset 255
13 ok bindings 2
binding 1 ALLOW User:a * Read Topic LITERAL t
binding 6 ALLOW User:a * Read Topic LITERAL u
14 denied 29 TOPIC_AUTHORIZATION_FAILED no-allow
15 ok deleted
16 ok commit -1
17 ok deleted
18 ok topics
";

/// Whether this is printed. If anything but a run is out of memory, all is done once more.
fn goes_on(alloc: Global, script: &str, expected: &str) -> bool {
    let done = match prints(alloc, script, expected) {
        None => prints(alloc, script, expected),
        done => done,
    };
    done == Some(true)
}

#[test]
fn changes_go_on(rt: HostRuntime) {
    assert!(rt; goes_on(rt.alloc(), CHANGES, CHANGED));
}

// Bindings whose names begin with one another, of which one is created twice, and which of them a
// denial names, also after two were deleted.
const BINDINGS: &str = "super User:root
User:root h create-topic orders 1
User:root h create-topic payments 1
User:svc h produce orders 0 - v
User:root h acl --add --deny-principal User:svc --operation Write \
--resource-pattern-type prefixed \
--topic orders --topic ord --topic o --topic pay --topic orders. --topic orders
User:root h acl --add --deny-principal User:svc --operation Write \
--topic orders --topic payments --topic * --topic orders.eu
User:svc h produce orders 0 - v
User:svc h produce payments 0 - v
User:root h delete-acls - orders any - - - -
User:svc h produce orders 0 - v
User:svc h produce payments 0 - v
User:root h acl --list
";

const BOUND: &str = "1 ok created
2 ok created
3 denied 29 TOPIC_AUTHORIZATION_FAILED no-allow
4 ok serials 1 2 3 4 5 1
5 ok serials 6 7 8 9
6 denied 29 TOPIC_AUTHORIZATION_FAILED deny:1
7 denied 29 TOPIC_AUTHORIZATION_FAILED deny:4
8 ok bindings 2
binding 1 DENY User:svc * Write Topic PREFIXED orders
binding 6 DENY User:svc * Write Topic LITERAL orders
9 denied 29 TOPIC_AUTHORIZATION_FAILED deny:2
10 denied 29 TOPIC_AUTHORIZATION_FAILED deny:4
11 ok bindings 7
binding 2 DENY User:svc * Write Topic PREFIXED ord
binding 3 DENY User:svc * Write Topic PREFIXED o
binding 4 DENY User:svc * Write Topic PREFIXED pay
binding 5 DENY User:svc * Write Topic PREFIXED orders.
binding 7 DENY User:svc * Write Topic LITERAL payments
binding 8 DENY User:svc * Write Topic LITERAL *
binding 9 DENY User:svc * Write Topic LITERAL orders.eu
";

#[test]
fn bindings_go_on(rt: HostRuntime) {
    assert!(rt; goes_on(rt.alloc(), BINDINGS, BOUND));
}

// Topics that are created and refused, and commits of groups.
const TOPICS: &str = "super User:root
User:root h create-topic a 2
User:root h create-topic b 300
User:root h create-topic a 0
User:root h create-topic c 0
User:root h create-topic c 1
User:root h create-topic d 1
User:root h create-topic e 1
User:root h create-topic f 1000
User:root h metadata
User:root h commit g a 0 5
User:root h committed g a 1
User:root h commit g a 1 6
User:root h committed g b 0
User:root h commit g b 0 7
User:root h committed h a 0
User:root h commit h a 0 8
User:root h committed g a 0
User:root h commit g a 0 9
User:root h committed g a 0
User:root h committed g a 1
User:root h committed g b 0
User:root h committed h a 0
User:root h groups
";

const CREATED: &str = "1 ok created
2 ok created
3 refused 36 TOPIC_ALREADY_EXISTS TopicExists
4 refused 37 INVALID_PARTITIONS BadPartitions
5 ok created
6 ok created
7 ok created
8 ok created
9 ok topics a:2 b:300 c:1 d:1 e:1 f:1000
10 ok committed
11 ok commit -1
12 ok committed
13 ok commit -1
14 ok committed
15 ok commit -1
16 ok committed
17 ok commit 5
18 ok committed
19 ok commit 9
20 ok commit 6
21 ok commit 7
22 ok commit 8
23 ok groups g h
";

#[test]
fn topics_and_commits_go_on(rt: HostRuntime) {
    assert!(rt; goes_on(rt.alloc(), TOPICS, CREATED));
}
