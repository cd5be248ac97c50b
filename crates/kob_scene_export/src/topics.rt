//! Topics, as `kafka-topics.sh` creates them.

ghost use Rattle.std.specs.Prelude.{◌≡◌, ◌++◌, IfOk, OnOk};
ghost use Rattle.kob_scene_export.specs.Topics.{alike_note, counted_text, metric_name};
ghost use Rattle.kob_scene_export.specs.Topics.{topic_line, topic_text};
ghost use Rattle.kob_words.specs.Words.{bytes_text};

use crate::plain::push_mark;
use kob_words::{push_bytes, push_number};
use std::alloc::{AllocError, Global};

/// Appends the line `kafka-topics.sh --create --topic=NAME --partitions=COUNT`. A topic's name
/// needs no quotes. Unless it is to be written, since its name is like that of an earlier topic,
/// the line is a comment below one that says so. The error is out of memory; `out` then ends with a
/// part of the text.
#[tactic(auto, using(kob_words::proofs::Appending::appending))]
pub fn export_topic(
    out: &mut Vec<u8>,
    written: bool,
    name: &str,
    partitions: u64,
) -> Result<(), AllocError>
    ensures { OnOk result (out.new.items
        ≡ out.old.items ++ topic_text written name.now partitions) }
{
    out.extend_from_slice(alike_note(written).as_bytes())?;
    push_mark(out, written)?;
    push_line(out, name, partitions)
}

#[tactic(auto, using(kob_words::proofs::Appending::appending), unfolding(crate::specs::Topics::topic_line))]
fn push_line(out: &mut Vec<u8>, name: &str, partitions: u64) -> Result<(), AllocError>
    ensures { OnOk result (out.new.items ≡ out.old.items ++ topic_line name.now partitions) }
{
    push_named(out, b"kafka-topics.sh --create --topic=", name)?;
    push_count(out, b" --partitions=", partitions)
}

fn alike_note(written: bool) -> &'static str
    ensures { result.now ≡ alike_note written }
{
    if written {
        ""
    } else {
        "# kafka-topics.sh refuses a name that differs from another one only in . and _.\n"
    }
}

/// The name of a topic as Kafka's metrics have it, with `.` for `_`. Of two topics with one such
/// name `kafka-topics.sh` takes only the first.
pub fn metric_name(alloc: Global, name: &str) -> Result<Vec<u8>, AllocError>
    ensures { IfOk result (λ made. made.items ≡ metric_name name.now) }
{
    let mut made = Vec::new(alloc);
    for byte in name.as_bytes() {
        made.push(if *byte == b'_' { b'.' } else { *byte })?;
    }
    Ok(made)
}

#[tactic(auto, using(kob_words::proofs::Appending::appending))]
fn push_named(out: &mut Vec<u8>, option: &[u8], name: &str) -> Result<(), AllocError>
    ensures { OnOk result (out.new.items ≡ out.old.items ++ (option.now ++ bytes_text name.now)) }
{
    out.extend_from_slice(option)?;
    push_bytes(out, name.as_bytes())
}

#[tactic(auto, using(kob_words::proofs::Appending::appending))]
fn push_count(out: &mut Vec<u8>, option: &[u8], count: u64) -> Result<(), AllocError>
    ensures { OnOk result (out.new.items ≡ out.old.items ++ counted_text option.now count) }
{
    out.extend_from_slice(option)?;
    push_number(out, count)?;
    out.extend_from_slice(b"\n")
}
