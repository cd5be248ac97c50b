//! The law of delivery of a service and a consumer without a plan.

ghost use Rattle.std.specs.Prelude.{◌≡◌, IfErr, OnOk};
ghost use Rattle.kob_broker.specs.State.{State};
ghost use Rattle.kob_delivery.specs.InTurn.{entries_of};
ghost use Rattle.kob_delivery.specs.View.{IsHistory, View, opening_view};
ghost use Rattle.kob_endpoints.specs.declared.reaching.DeliveryFault.TheVariants.{Memory};
ghost use Rattle.kob_endpoints.specs.InTurn.{AreInTurn};
ghost use Rattle.kob_endpoints.specs.Running.{HasPremises, IsLacking, ReachesReader};
ghost use Rattle.kob_names.specs.declared.settings.Settings.{Settings};
ghost use Rattle.kob_partition.specs.Retained.{Retained};
ghost use Rattle.kob_shared.specs.Journals.{opened_by};

use crate::consumer_end::ConsumerEnd;
use crate::part::first_unserved;
use crate::service_end::ServiceEnd;
use kob_delivery::{
    Breach, a_legal_journal_is_a_history, an_inbox_holds_a_prefix_of_each_aggregate, breach_in_turn,
};
use kob_shared::{Journal, Recorded, journals_in_turn_are_legal};
use std::alloc::{AllocError, Global};
use thiserror::Error;

/// What the law of delivery asks of a journal and does not find.
#[derive(Clone, Copy, Debug, Error)]
pub enum DeliveryFault {
    #[error("out of memory")]
    Memory(AllocError),
    /// The service's entries are not the calls of its line that were served. The number is that of
    /// the first call that has no place among them, where the first of all is 0; or that of all
    /// calls, if each has its place and entries are left over.
    #[error("the journal has other calls of the service from call {0} on")]
    Service(usize),
    /// The same of the consumer.
    #[error("the journal has other calls of the consumer from call {0} on")]
    Consumer(usize),
    /// The first entry that breaks a premise, as [`breach_in_turn`] finds it.
    #[error("an entry of the journal breaks a premise")]
    Premise(Breach),
}

impl From<AllocError> for DeliveryFault {
    ghost from_gives = { λ refused fault. fault ≡ Memory refused };

    fn from(refused: AllocError) -> DeliveryFault {
        DeliveryFault::Memory(refused)
    }
}

/// Looks whether the journal has the calls of a service and of a consumer, and breaks no premise of
/// the law of delivery between them. If so, the inbox holds of each aggregate a prefix of the
/// events that the service recorded. They are in their order, each once, with its row's key and
/// value. Otherwise the error is what is lacking.
pub fn reaches_in_order(
    alloc: Global,
    recorded: &Recorded,
    sent: &ServiceEnd,
    taken: &ConsumerEnd,
) -> Result<(), DeliveryFault>
    ensures premises { OnOk result (HasPremises sent.now taken.now recorded.now.journal) }
    ensures reaches { OnOk result (ReachesReader sent.now taken.now) }
    ensures lacking { IfErr result (IsLacking sent.now taken.now recorded.now.journal) }
{
    reaches_in_turn(alloc, &[recorded.journal()], sent, taken)
}

/// The same of journals that follow one another, as a broker hands them out, the oldest first. They
/// are of this crate's broker, or were recorded over another one that keeps what the laws of
/// delivery see (`IsHistory`). The place of an entry that breaks a premise counts the entries of all
/// journals.
pub fn reaches_in_turn(
    alloc: Global,
    journals: &[&Journal],
    sent: &ServiceEnd,
    taken: &ConsumerEnd,
) -> Result<(), DeliveryFault>
    ensures premises { OnOk result
        (HasPremises sent.now taken.now (entries_of journals.now)) }
    ensures history { OnOk result ((view : View)
        → IsHistory opening_view (entries_of journals.now) view
        → ReachesReader sent.now taken.now) }
    ensures in_turn { OnOk result ((opening : Settings) (now : State Retained)
        → AreInTurn (opened_by opening) journals.now now
        → ReachesReader sent.now taken.now) }
    ensures lacking { IfErr result
        (IsLacking sent.now taken.now (entries_of journals.now)) }
{
    let sender = sent.part();
    if let Some(number) = first_unserved(alloc, journals, sender)? {
        return Err(DeliveryFault::Service(number));
    }
    let taker = taken.part();
    if let Some(number) = first_unserved(alloc, journals, taker)? {
        return Err(DeliveryFault::Consumer(number));
    }
    let subscription = taken.consumer().subscription();
    let group = &subscription.group;
    let places = subscription.assignment.as_slice();
    let found = breach_in_turn(journals, sender.worker, taker.worker, group, places)?;
    journals_in_turn_are_legal();
    a_legal_journal_is_a_history();
    an_inbox_holds_a_prefix_of_each_aggregate();
    match found {
        Some(breach) => Err(DeliveryFault::Premise(breach)),
        None => Ok(()),
    }
}
