//! The topics that a decider grants, lent one by one.

ghost use Rattle.std.specs.Iterator.{YieldsFirstBy, item_count};

use crate::decider::Decider;
use crate::topic::Topic;
use kob_names::Text;
use kob_ordered::Iter;
use std::marker::Model;

/// The names of topics that a decider grants, with their numbers of partitions, in order of creation.
/// Contracts see those that are left.
#[derive(Drop)]
pub struct GrantedTopics<'a, D: Decider + Drop> {
    pub(crate) topics: Iter<'a, Topic>,
    pub(crate) decider: D,
}

impl<'a, D: Decider + Drop> Model for GrantedTopics<'a, D> {
    ghost use Rattle.std.specs.Prelude.{List, ℕ};
    ghost use Rattle.kob_catalog.specs.Topics.{listed_where};

    ghost Value = { List (List ℕ × ℕ) };

    ghost view = { λ left. listed_where (D.granted left.decider) left.topics };
}

impl<'a, D: Decider + Drop> Iterator for GrantedTopics<'a, D> {
    type Item = (&'a Text, u64);

    ghost next_gives = { YieldsFirstBy (λ item. (item.0.now, item.1)) (λ left. left) };

    ghost remaining = { item_count (λ left. left) };

    fn next(&mut self) -> Option<(&'a Text, u64)> {
        loop {
            let (name, topic) = self.topics.next()?;
            if self.decider.grants(name) {
                return Some((name, topic.len() as u64));
            }
        }
    }
}
