//! The records and the topics that a reply returns, printed from the log and the catalog.

ghost use Rattle.std.specs.Prelude.{◌≡◌, ◌++◌, OnOk, flat_map};
ghost use Rattle.std.specs.List.{enumerate_from};
ghost use Rattle.kob_rights.specs.declared.reply.Body.TheVariants.{Records, Topics};
ghost use Rattle.kob_rights.specs.declared.reply.Reply.TheVariants.{Done};
ghost use Rattle.kob_script.specs.Printed.{record_item, reply_text, topic_item};

use kob_catalog::{Decider, GrantedTopics};
use kob_partition::LentRecords;
use kob_script::{push_record, push_topic};
use kob_words::push_number;
use std::alloc::AllocError;

/// Prints the number of a reply, the reply with these records and a line feed, as `print_reply`
/// prints a reply that has copies of them.
pub fn print_records(
    out: &mut Vec<u8>,
    number: u64,
    records: &LentRecords<'_>,
) -> Result<(), AllocError>
    ensures { OnOk result (out.new.items ≡ out.old.items ++ reply_text number
        (Done (Records (enumerate_from records.now.first records.now.records)))) }
{
    push_number(out, number)?;
    out.extend_from_slice(b" ok ")?;
    out.extend_from_slice(b"records")?;
    push_records(out, records)?;
    out.extend_from_slice(b"\n")?;
    Ok(())
}

#[tactic(auto, using(crate::proofs::PrintedRecords::record_put))]
fn push_records(out: &mut Vec<u8>, records: &LentRecords<'_>) -> Result<(), AllocError>
    ensures { OnOk result (out.new.items ≡ out.old.items ++ flat_map record_item
        (enumerate_from records.now.first records.now.records)) }
{
    let first = records.first();
    for at in 0..records.len() {
        let record = records.get(at).unwrap();
        push_record(out, first + at as u64, record)?;
    }
    Ok(())
}

/// Prints the number of a reply, the reply with these topics and a line feed, as `print_reply` prints a
/// reply that has copies of their names.
pub fn print_topics<D: Decider + Drop>(
    out: &mut Vec<u8>,
    number: u64,
    topics: GrantedTopics<'_, D>,
) -> Result<(), AllocError>
    ensures { OnOk result (out.new.items ≡ out.old.items
        ++ reply_text number (Done (Topics topics.entry))) }
{
    push_number(out, number)?;
    out.extend_from_slice(b" ok ")?;
    out.extend_from_slice(b"topics")?;
    push_topics(out, topics)?;
    out.extend_from_slice(b"\n")?;
    Ok(())
}

fn push_topics<D: Decider + Drop>(
    out: &mut Vec<u8>,
    topics: GrantedTopics<'_, D>,
) -> Result<(), AllocError>
    ensures { OnOk result (out.new.items ≡ out.old.items ++ flat_map topic_item topics.entry) }
{
    for (name, partitions) in topics {
        push_topic(out, name, partitions)?;
    }
    Ok(())
}
