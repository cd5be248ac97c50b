//! Whether the entries of journals are those of some broker, and the law of delivery over such.

ghost use Rattle.std.specs.Prelude.{◌≡◌, ◌+◌, IfErr, IfOk, MatchOption, OnOk};
ghost use Rattle.kob_delivery.specs.InTurn.{entries_of};
ghost use Rattle.kob_delivery.specs.View.{IsHistory, View, opening_view};
ghost use Rattle.kob_endpoints.specs.History.{AreMade, IsFirstStranger, IsSomeHistory};
ghost use Rattle.kob_endpoints.specs.History.{IsUnjudged, IsUnmade, after_all};
ghost use Rattle.kob_endpoints.specs.Running.{HasPremises, ReachesReader};
ghost use Rattle.kob_endpoints.specs.Seen.{Shows};
ghost use Rattle.kob_endpoints.specs.declared.history.JudgeFault.TheVariants as judged;
ghost use Rattle.kob_endpoints.specs.declared.reaching.DeliveryFault.TheVariants.{Memory};

use crate::consumer_end::ConsumerEnd;
use crate::reaching::{DeliveryFault, reaches_in_turn};
use crate::seen::Seen;
use crate::service_end::ServiceEnd;
use kob_names::sum_of;
use kob_shared::Journal;
use std::alloc::{AllocError, Global};
use thiserror::Error;

/// Why journals do not show that events reach an inbox.
#[derive(Clone, Copy, Debug, Error)]
pub enum JudgeFault {
    /// The first entry that no broker makes after those before it, as [`first_stranger`] finds it.
    #[error("no broker makes an entry of the journal after those before it")]
    Stranger(usize),
    /// What the law of delivery asks and does not find, as [`reaches_in_turn`] says.
    #[error(transparent)]
    Delivery(DeliveryFault),
}

impl From<DeliveryFault> for JudgeFault {
    ghost from_gives = { λ lacking fault. fault ≡ judged.Delivery lacking };

    fn from(lacking: DeliveryFault) -> JudgeFault {
        JudgeFault::Delivery(lacking)
    }
}

impl From<AllocError> for JudgeFault {
    ghost from_gives = { λ refused fault. fault ≡ judged.Delivery (Memory refused) };

    fn from(refused: AllocError) -> JudgeFault {
        JudgeFault::Delivery(DeliveryFault::Memory(refused))
    }
}

/// The place of the first entry that no broker makes after those before it, in journals that follow
/// one another, the oldest first. None: some broker makes them all. The laws of delivery hold for
/// it. Here a broker is what keeps the rules that those laws see (`Step`): it accepts batches with
/// producer ids that it gave, in the order of their sequences, each once. It reads records by their
/// offsets, and leaves none out. It returns the offset that a group committed last, and gives each
/// producer id once.
///
/// Takes memory for a reference to each record. The time for an entry grows with the numbers of
/// partitions, of groups' offsets, and of producer ids, but not with the number of records. The
/// error is out of memory, or says that a number does not count the entries: memory holds fewer.
pub fn first_stranger(alloc: Global, journals: &[&Journal]) -> Result<Option<usize>, AllocError>
    ensures { IfOk result (λ found. MatchOption found
        ((view : View) × IsHistory opening_view (entries_of journals.now) view)
        (IsFirstStranger (entries_of journals.now))) }
{
    let mut seen = Seen::new(alloc);
    let mut before: usize = 0;
    for journal in journals {
        if let Some(place) = first_unmade(alloc, &mut seen, *journal)? {
            return Ok(Some(sum(before, place)?));
        }
        before = sum(before, journal.len())?;
    }
    Ok(None)
}

/// The law of delivery over journals of any broker: looks first whether some broker makes the
/// entries (`first_stranger`), and then whether they have the calls of a service and of a consumer
/// and break no premise (`reaches_in_turn`).
pub fn judged_in_turn(
    alloc: Global,
    journals: &[&Journal],
    sent: &ServiceEnd,
    taken: &ConsumerEnd,
) -> Result<(), JudgeFault>
    ensures premises { OnOk result
        (HasPremises sent.now taken.now (entries_of journals.now)) }
    ensures history { OnOk result (IsSomeHistory (entries_of journals.now)) }
    ensures reaches { OnOk result (ReachesReader sent.now taken.now) }
    ensures lacking { IfErr result
        (IsUnjudged sent.now taken.now (entries_of journals.now)) }
{
    if let Some(place) = first_stranger(alloc, journals)? {
        return Err(JudgeFault::Stranger(place));
    }
    Ok(reaches_in_turn(alloc, journals, sent, taken)?)
}

/// The first entry of a journal that a broker does not make after what was seen. If there is none,
/// all are seen then.
fn first_unmade<'a>(
    alloc: Global,
    seen: &mut Seen<'a>,
    journal: &'a Journal,
) -> Result<Option<usize>, AllocError>
    ensures { (v : View) → Shows v seen.old → IfOk result (λ found. MatchOption found
        (AreMade v journal.now × Shows (after_all v journal.now) seen.new)
        (IsUnmade v journal.now)) }
{
    for place in 0..journal.len() {
        let entry = journal.entry_at(place);
        if !seen.may_make(entry) {
            return Ok(Some(place));
        }
        seen.follow(alloc, entry)?;
    }
    Ok(None)
}

/// The sum of two numbers of entries.
fn sum(one: usize, other: usize) -> Result<usize, AllocError>
    ensures { IfOk result (λ both. both ≡ one + other) }
{
    sum_of(one, other)
}
