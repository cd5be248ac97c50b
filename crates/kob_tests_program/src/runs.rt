//! Whole runs by readers and writers that read or write little, interrupt, and fail once.

use crate::no_allocation::READY;
use kob_script_run::{Ended, RunFault, SCRIPT_LIMIT, run_text};
use std::alloc::Global;
use std::io;
use std::io::{Error, ErrorKind, Read, Write};
use std::process::Abort;

/// Reads or writes at most `width` bytes a call, and interrupts every other call. After `calls`
/// calls that were not interrupted the next one fails, and no other. `widest` is the most bytes
/// that a call was passed.
#[derive(Drop)]
struct Shaken<T> {
    inner: T,
    width: usize,
    calls: usize,
    failed: bool,
    ready: bool,
    widest: usize,
}

impl<T> Shaken<T> {
    fn new(inner: T, width: usize, calls: usize) -> Shaken<T> {
        Shaken {
            inner,
            width,
            calls,
            failed: false,
            ready: true,
            widest: 0,
        }
    }

    /// Whether this call is served.
    fn call(&mut self) -> io::Result<()> {
        self.ready = !self.ready;
        if !self.ready {
            return Err(Error::from(ErrorKind::Interrupted));
        }
        if self.calls == 0 && !self.failed {
            self.failed = true;
            return Err(Error::from(ErrorKind::Other));
        }
        self.calls = self.calls.saturating_sub(1);
        Ok(())
    }
}

impl<R: Read> Read for Shaken<R> {
    fn read(&mut self, buf: &mut [u8]) -> io::Result<usize> {
        self.call()?;
        let count = buf.len().min(self.width);
        self.inner.read(&mut buf[..count])
    }
}

impl<W: Write> Write for Shaken<W> {
    fn write(&mut self, buf: &[u8]) -> io::Result<usize> {
        self.widest = self.widest.max(buf.len());
        self.call()?;
        let count = buf.len().min(self.width);
        self.inner.write(&buf[..count])
    }

    fn flush(&mut self) -> io::Result<()> {
        self.inner.flush()
    }
}

const SCRIPT: &str = "super User:root
User:root 10.0.0.1 create-topic outbox.event.orders 1
User:root 10.0.0.1 create-acl allow User:svc * Write Topic literal outbox.event.orders
User:svc 10.0.0.2 produce outbox.event.orders 0 - 42=paid
User:bob 10.0.0.3 produce outbox.event.orders 0 - 42=void
User:root 10.0.0.1 fetch outbox.event.orders 0 0 10
User:svc 10.0.0.2 fetch outbox.event.orders 0 0 10
";

const OUTPUT: &str = "1 ok created
2 ok serials 1
3 ok offset 0
4 denied 29 TOPIC_AUTHORIZATION_FAILED no-allow
5 ok records 0:42=paid
6 denied 29 TOPIC_AUTHORIZATION_FAILED no-allow
";

/// How a script ends, and whether this is written.
fn play<R: Read + Drop>(
    alloc: Global,
    reader: R,
    output: &[u8],
) -> (Result<Ended, RunFault>, bool) {
    let (mut reader, mut written) = (reader, Vec::new(alloc));
    let ended = run_text(alloc, &mut reader, &mut written);
    (ended, written.as_slice() == output)
}

#[test]
fn each_prefix_ends(rt: HostRuntime) {
    for end in 0..=SCRIPT.len() {
        let (ended, _) = play(rt.alloc(), &SCRIPT.as_bytes()[..end], b"");
        assert!(rt;
            ended == Ok(Ended::Clean) || ended == Ok(Ended::Fault),
            "the first {end} bytes"
        );
    }
}

// A reader that fails after this number of calls leaves nothing written, and one that reaches the
// end before that plays the script.
#[test]
fn failed_reads_write_nothing(rt: HostRuntime) {
    for calls in 0..SCRIPT.len() + 2 {
        let (ended, output) = if calls <= SCRIPT.len() {
            (Err(RunFault::ReadFailed), "")
        } else {
            (Ok(Ended::Clean), OUTPUT)
        };
        let reader = Shaken::new(SCRIPT.as_bytes(), 1, calls);
        let played = play(rt.alloc(), reader, output.as_bytes());
        assert!(rt; played == (ended, true), "{calls} calls");
    }
}

/// Half of the calls are interrupted.
#[test]
fn calls_of_a_reader_have_a_limit(rt: HostRuntime) {
    let mut reader = Shaken::new(io::repeat(b'#'), 1, 20_000_000);
    let mut written = Vec::new(rt.alloc());
    let ended = run_text(rt.alloc(), &mut reader, &mut written);
    assert_eq!(rt; ended, Err(RunFault::ReadFailed));
    assert_eq!(rt; (reader.calls, written.len()), (10_000_000, 0));
}

/// Whether a comment of this number of bytes ends so, and nothing is written.
fn comment_ends(alloc: Global, bytes: usize, ended: Result<Ended, RunFault>) -> bool {
    play(alloc, io::repeat(b'#').take(bytes as u64), b"") == (ended, true)
}

#[test]
fn scripts_have_a_limit(rt: HostRuntime) {
    assert!(rt; comment_ends(rt.alloc(), SCRIPT_LIMIT, Ok(Ended::Clean)));
    assert!(rt; comment_ends(rt.alloc(), SCRIPT_LIMIT + 1, Err(RunFault::TooLong)));
}

/// Begins a script that puts a record of this value into a topic.
fn put_producing(rt: &impl Abort, script: &mut Vec<u8>, value: &[u8]) {
    let begin = b"super User:r\nUser:r h create-topic t 1\nUser:r h produce t 0 - ";
    script.extend_from_slice(begin).expect(rt, READY);
    script.extend_from_slice(value).expect(rt, READY);
}

/// This is written for a record of this number of bytes.
fn batch_writes(rt: &impl Abort, alloc: Global, bytes: usize, output: &str) {
    let value = vec![in alloc; b'v'; bytes].expect(rt, READY);
    let mut script = Vec::new(alloc);
    put_producing(rt, &mut script, &value);
    let (_, is_written) = play(alloc, script.as_slice(), output.as_bytes());
    assert!(rt; is_written);
}

#[test]
fn batches_have_a_limit(rt: HostRuntime) {
    let output = "1 ok created\n2 ok offset 0\n";
    batch_writes(&rt, rt.alloc(), 2_097_152, output);
    let output = "1 ok created\n2 refused 10 MESSAGE_TOO_LARGE TooLarge\n";
    batch_writes(&rt, rt.alloc(), 2_097_153, output);
}

/// A writer that accepts `calls` calls of `width` bytes has their bytes of the output, and the run
/// fails unless they are all.
fn leaves_a_front(alloc: Global, width: usize, calls: usize) -> bool {
    let output = OUTPUT.as_bytes();
    let mut writer = Shaken::new(Vec::new(alloc), width, calls);
    let ended = run_text(alloc, &mut SCRIPT.as_bytes(), &mut writer);
    let count = output.len().min(width.saturating_mul(calls));
    let end = if count < output.len() {
        Err(RunFault::WriteFailed)
    } else {
        Ok(Ended::Clean)
    };
    ended == end && writer.inner.as_slice() == &output[..count]
}

#[test]
fn failed_writes_leave_a_front(rt: HostRuntime) {
    for (width, most) in [(1, 300), (7, 40), (1_000, 3)] {
        for calls in 0..most {
            let is_front = leaves_a_front(rt.alloc(), width, calls);
            assert!(rt; is_front, "{calls} calls of {width}");
        }
    }
}

/// Appends a request and its reply. Two of the numbers request a reply that is longer than a piece,
/// all others a short one.
fn ask(
    rt: &impl Abort,
    alloc: Global,
    script: &mut Vec<u8>,
    output: &mut Vec<u8>,
    number: u32,
    value: &[u8],
) {
    let (request, kind, value) = if number == 5_000 || number == 5_001 {
        (b"\nUser:r h fetch t 0 0 1".as_slice(), "records 0:", value)
    } else {
        (b"\nUser:r h groups".as_slice(), "groups", b"".as_slice())
    };
    script.extend_from_slice(request).expect(rt, READY);
    let reply = format!(in alloc; "{number} ok {kind}").expect(rt, READY);
    output.extend_from_slice(reply.as_bytes()).expect(rt, READY);
    output.extend_from_slice(value).expect(rt, READY);
    output.extend_from_slice(b"\n").expect(rt, READY);
}

// The pieces: 65,536 bytes of short replies; those before the first long reply; that one; the
// second one; 65,536 bytes of short replies; the rest.
const PIECES: usize = 6;

/// A writer that accepts `calls` calls has a prefix of the output, and the run fails unless it
/// accepts each piece. It is passed at most one piece or one reply at once.
fn takes_pieces(alloc: Global, script: &[u8], output: &[u8], calls: usize) -> bool {
    let mut writer = Shaken::new(Vec::new(alloc), output.len(), calls);
    let ended = run_text(alloc, &mut &*script, &mut writer);
    let end = if calls < PIECES {
        Err(RunFault::WriteFailed)
    } else {
        Ok(Ended::Clean)
    };
    ended == end && output.starts_with(writer.inner.as_slice()) && writer.widest < 70_030
}

// A script of 10,000 short requests, between which a record is fetched twice.
#[test]
fn long_output_is_written_in_pieces(rt: HostRuntime) {
    let alloc = rt.alloc();
    let value = vec![in alloc; b'v'; 70_000].expect(&rt, READY);
    let (mut script, mut output) = (Vec::new(alloc), Vec::new(alloc));
    put_producing(&rt, &mut script, &value);
    let first = b"1 ok created\n2 ok offset 0\n";
    output.extend_from_slice(first).expect(&rt, READY);
    for number in 3..10_003 {
        ask(&rt, alloc, &mut script, &mut output, number, &value);
    }
    for calls in 0..10 {
        let is_taken = takes_pieces(alloc, &script, &output, calls);
        assert!(rt; is_taken, "{calls} calls");
    }
}

/// Interrupts each call, and counts them.
#[derive(Drop)]
struct Interrupting(u32);

impl Write for Interrupting {
    fn write(&mut self, _buf: &[u8]) -> io::Result<usize> {
        self.0 = self.0.saturating_add(1);
        Err(Error::from(ErrorKind::Interrupted))
    }

    fn flush(&mut self) -> io::Result<()> {
        Ok(())
    }
}

#[test]
fn calls_of_a_writer_have_a_limit(rt: HostRuntime) {
    let mut writer = Interrupting(0);
    let ended = run_text(rt.alloc(), &mut SCRIPT.as_bytes(), &mut writer);
    assert!(rt; (ended, writer.0) == (Err(RunFault::WriteFailed), 1_000_000));
}
