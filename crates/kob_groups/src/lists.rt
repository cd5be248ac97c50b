//! The groups with commits on each topic.

ghost use Rattle.std.specs.Prelude.{[], ◌≡◌, ◌∷◌, ◌<◌, ℕ, List, false, not, ◌&&◌, ◌||◌};
ghost use Rattle.std.specs.Prelude.{IfOk, IfSome, None, OnErr};
ghost use Rattle.std.specs.Map.{lookup};
ghost use Rattle.kob_groups.specs.Groups.{AreFilled, is_among};
ghost use Rattle.kob_names.specs.Same.{same_text};
ghost use Rattle.kob_ordered.specs.Ordered.{StandsAt, name_at};

use kob_names::{PlainValue, Text};
use kob_ordered::OrderedMap;
use std::alloc::{AllocError, Global};

/// The names of groups; their order has no meaning.
pub(crate) type GroupNames = OrderedMap<()>;

/// The groups with commits on each topic. No list is empty.
#[derive(Drop)]
pub(crate) struct GroupsByTopic {
    pub(crate) by_topic: OrderedMap<GroupNames>,
    ghost filled: { AreFilled by_topic.entries },
}

/// A group that will be listed for a topic.
#[derive(Drop)]
pub(crate) enum Listing {
    /// The group is added to the list at a place.
    InList(usize, Text),
    /// The group is added to the empty list that is inserted for a topic without one.
    NewList(Text, Text, Box<GroupNames>),
}

impl GroupsByTopic {
    ghost use Rattle.kob_groups.specs.Listed.{CanList, HasRoomFor, ListsAlike, is_listed, is_pair};
    ghost use Rattle.kob_groups.specs.Listed.{Lists};

    /// No lists. Does not allocate.
    pub(crate) fn new(alloc: Global) -> GroupsByTopic
        ensures { (topic group : List ℕ) → is_listed topic group result ≡ false }
    {
        GroupsByTopic {
            by_topic: OrderedMap::new(alloc),
        }
    }

    /// Reserves capacity for a group that is not among those of a topic, and copies the names that
    /// are new. The lists are unchanged, also after an error, which is out of memory.
    pub(crate) fn reserve(
        &mut self,
        alloc: Global,
        topic: &Text,
        group: &Text,
    ) -> Result<Listing, AllocError>
        requires { is_listed topic.now group.now self.old ≡ false }
        ensures kept { ListsAlike self.old self.new }
        ensures ready { IfOk result (λ listing. Lists listing topic.now group.now self.new) }
    {
        match self.by_topic.place_of(topic) {
            Some(place) => self.reserve_name(alloc, place, group),
            None => {
                self.by_topic.reserve()?;
                let mut names = OrderedMap::new(alloc);
                names.reserve()?;
                let names = Box::new(alloc, names)?;
                let topic = topic.copy(alloc)?;
                let group = group.copy(alloc)?;
                Ok(Listing::NewList(topic, group, names))
            }
        }
    }

    /// Reserves capacity for a group that is not in the list at a place.
    #[tactic(auto, using(crate::proofs::Maps::reserving_name))]
    fn reserve_name(
        &mut self,
        alloc: Global,
        place: usize,
        group: &Text,
    ) -> Result<Listing, AllocError>
        requires stands { StandsAt self.old.by_topic place (name_at self.old.by_topic place) }
        requires absent { is_listed (name_at self.old.by_topic place) group.now self.old ≡ false }
        ensures kept { ListsAlike self.old self.new }
        ensures ready { IfOk result (λ listing.
            Lists listing (name_at self.old.by_topic place) group.now self.new) }
    {
        self.by_topic.value_at_mut(place).reserve()?;
        let group = group.copy(alloc)?;
        Ok(Listing::InList(place, group))
    }

    /// Lists a group for a topic in reserved capacity, unless it was listed when that was reserved.
    /// Does not allocate.
    pub(crate) fn put(&mut self, listing: Option<Listing>)
        requires { IfSome listing (λ listing. HasRoomFor listing self.old) }
        ensures { (topic group : List ℕ) → CanList listing topic group self.old
            → (t g : List ℕ) → is_listed t g self.new
            ≡ (is_pair topic group t g || is_listed t g self.old) }
    {
        if let Some(listing) = listing {
            self.put_new(listing);
        }
    }

    /// Lists a group for a topic, in reserved capacity.
    fn put_new(&mut self, listing: Listing)
        requires { HasRoomFor listing self.old }
        ensures { (topic group : List ℕ) → Lists listing topic group self.old
            → (t g : List ℕ) → is_listed t g self.new
            ≡ (is_pair topic group t g || is_listed t g self.old) }
    {
        match listing {
            Listing::InList(place, group) => self.by_topic.value_at_mut(place).insert(group, ()),
            Listing::NewList(topic, group, names) => {
                let mut names = Box::into_inner(names);
                names.insert(group, ());
                self.by_topic.insert(topic, names);
            }
        }
    }

    /// Removes a group from the list of a topic. Does not allocate.
    pub(crate) fn remove(&mut self, topic: &Text, group: &Text)
        ensures { (t g : List ℕ) → is_listed t g self.new
            ≡ (is_listed t g self.old && not (is_pair topic.now group.now t g)) }
    {
        let Some(names) = self.by_topic.get_mut(topic) else {
            return;
        };
        let _ = names.remove(group);
        if names.len() == 0 {
            let _ = self.by_topic.remove(topic);
        }
    }

    /// Removes the list of a topic, and returns it. Does not allocate.
    pub(crate) fn take(&mut self, topic: &Text) -> Option<GroupNames>
        ensures names { (group : List ℕ)
            → is_among group result ≡ is_listed topic.now group self.old }
        ensures left { (t g : List ℕ) → is_listed t g self.new
            ≡ (not (same_text topic.now t) && is_listed t g self.old) }
    {
        self.by_topic.remove(topic)
    }
}
