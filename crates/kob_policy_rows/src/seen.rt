//! The rows of `sees`: the topics that a principal may describe.

ghost use Rattle.std.specs.Prelude.{◌≡◌, ◌++◌, OnOk, flat_map};
ghost use Rattle.kob_policy_rows.specs.Answers.{seen_rows, sees_rows};

use crate::cell::{Cell, push_row, push_words};
use kob_names::{Items, Text};
use kob_policy_text::{Asker, Judge, is_seen, topics_named};
use std::alloc::{AllocError, Global};

#[tactic(auto, using(kob_words::proofs::Appending::appending))]
fn push_topics(
    alloc: Global,
    rows: &mut Vec<Items<Cell>>,
    judge: &Judge,
    topics: &[Text],
    asker: &Asker,
) -> Result<(), AllocError>
    ensures { OnOk result (rows.new.items
        ≡ rows.old.items ++ flat_map (seen_rows judge.now asker.now) topics.now) }
{
    for topic in topics {
        if is_seen(judge, asker, topic) {
            let mut row = Vec::new(alloc);
            push_words(alloc, &mut row, topic.as_str())?;
            push_row(rows, row)?;
        }
    }
    Ok(())
}

/// Which of the given topics an asker may describe, or of those that bindings name.
pub fn push_sees(
    alloc: Global,
    rows: &mut Vec<Items<Cell>>,
    judge: &Judge,
    topics: &[Text],
    asker: &Asker,
) -> Result<(), AllocError>
    ensures { OnOk result
        (rows.new.items ≡ rows.old.items ++ sees_rows judge.now topics.now asker.now) }
{
    match topics {
        [] => {
            let named = topics_named(alloc, judge.policy().bindings())?.into_vec();
            push_topics(alloc, rows, judge, named.as_slice(), asker)
        }
        _ => push_topics(alloc, rows, judge, topics, asker),
    }
}
