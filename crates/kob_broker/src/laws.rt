//! Laws of the definitions. These functions do nothing: their contracts are the laws.
//!
//! Each law is stated for a broker over all accepted batches of each partition (`plain`), and for
//! one over what a log keeps of them (`retained`). `Broker::run` is the second.

ghost use Rattle.std.specs.List.{All};
ghost use Rattle.std.specs.Prelude.{◌≡◌, ◌≤◌, ◌+◌, List, false, length};
ghost use Rattle.kob_authorizer.specs.Decide.{Contents, decide_by_bindings};
ghost use Rattle.kob_names.specs.declared.settings.Settings.{Settings};
ghost use Rattle.kob_rights.specs.Requests.{OffsetsWithin};
ghost use Rattle.kob_rights.specs.Table.{Check};
ghost use Rattle.kob_rights.specs.declared.event.Event.{Event};
ghost use Rattle.kob_rights.specs.declared.request.Request.{Request};
ghost use Rattle.kob_partition.specs.Retained.{Plain, Retained, plain_meaning, retained_meaning};
ghost use Rattle.kob_partition.specs.Meaning.{offset_limit};
ghost use Rattle.kob_broker.specs.Denial.{question, verdict};
ghost use Rattle.kob_broker.specs.Justice.{AgreeOnAccess, EachJust, EachLists, HoldsInForce};
ghost use Rattle.kob_broker.specs.Justice.{LeavesUnlessDone, SameDenial, SaysNothingSpent};
ghost use Rattle.kob_broker.specs.Justice.{HasCodes, asked_in, denial_codes};
ghost use Rattle.kob_broker.specs.Step.{OpensAlike, RunsAlike, StepsAlike, replies_of, step};
ghost use Rattle.kob_broker.specs.State.{State, open_state};

/// Whatever events come after the opening, each is served exactly if the bindings in force at its
/// place grant every right of the operation table. Each denial names the earliest deny that hits,
/// or says that no allow does.
#[tactic(auto, using(crate::proofs::Just::opened_just))]
pub fn each_reply_is_just()
    ensures plain { (settings : Settings) (events : List Event)
        → EachJust plain_meaning events (open_state settings) }
    ensures retained { (settings : Settings) (events : List Event)
        → EachJust retained_meaning events (open_state settings) }
{
    // The contract is the law.
}

/// The code of a denial is the request's, as in Kafka: 29 on topics, 30 on groups, 31 on the
/// cluster. CREATE_TOPICS is denied with 29, although a right on the cluster would do.
#[tactic(auto, using(crate::proofs::Just::codes_by_request))]
pub fn denials_have_the_codes_of_their_requests()
    ensures { (request : Request) → HasCodes request (denial_codes request) }
{
    // The contract is the law.
}

/// A denied request changes nothing, and neither does a refused one.
#[tactic(auto, using(crate::proofs::Steps::leaves_unless_done))]
pub fn only_done_requests_change_the_state()
    ensures plain { (s : State Plain) (event : Event) → LeavesUnlessDone plain_meaning s event }
    ensures retained { (s : State Retained) (event : Event)
        → LeavesUnlessDone retained_meaning s event }
{
    // The contract is the law.
}

/// The bindings in force at any place of a run follow from the events before it and their replies:
/// after the first events of a run, the broker holds what `in_force` makes of them.
#[tactic(auto, using(crate::proofs::Just::run_access))]
pub fn replies_tell_the_bindings_in_force()
    ensures plain { (s : State Plain) (events : List Event)
        → HoldsInForce plain_meaning events s }
    ensures retained { (s : State Retained) (events : List Event)
        → HoldsInForce retained_meaning events s }
{
    // The contract is the law.
}

/// Whether an event is denied, and how, depends only on the event, the settings and the bindings in
/// force. Two brokers that agree on these give equal denials, whatever serial comes next, what
/// topics and groups they hold, and however their partitions are kept.
#[tactic(auto, using(crate::proofs::Just::same_denial))]
pub fn denials_depend_on_bindings_alone()
    ensures plain { (s t : State Plain) (event : Event) → AgreeOnAccess s.access t.access
        → SameDenial (step plain_meaning s event).reply (step plain_meaning t event).reply }
    ensures retained { (s t : State Retained) (event : Event)
        → AgreeOnAccess s.access t.access
        → SameDenial (step retained_meaning s event).reply (step retained_meaning t event).reply }
    ensures either { (s : State Plain) (t : State Retained) (event : Event)
        → AgreeOnAccess s.access t.access
        → SameDenial (step plain_meaning s event).reply (step retained_meaning t event).reply }
{
    // The contract is the law.
}

/// If nothing is open to everyone, each verdict on a right is by super users and bindings alone.
/// Whether anything is open to everyone never changes, whatever a broker serves.
#[tactic(auto, using(crate::proofs::Steps::step_switch, kob_authorizer::proofs::Verdicts::by_bindings))]
pub fn verdicts_are_by_bindings_where_nothing_is_open()
    ensures verdicts { (access : Contents) (event : Event) (check : Check)
        → access.everyone ≡ false
        → verdict access event check
        ≡ decide_by_bindings access.entries access.supers (question event check) }
    ensures plain { (s : State Plain) (event : Event)
        → (step plain_meaning s event).state.access.everyone ≡ s.access.everyone }
    ensures retained { (s : State Retained) (event : Event)
        → (step retained_meaning s event).state.access.everyone ≡ s.access.everyone }
{
    // The contract is the law.
}

/// What a log keeps of its batches is enough. Whatever broker and events, a broker over what is
/// kept gives the same replies as one over all accepted batches. Its state after them is what is
/// kept of the other's state. Both open alike, so that what is proved of the replies of one holds
/// of the other's.
#[tactic(auto, using(crate::proofs::Lifting::steps_alike))]
pub fn what_is_kept_is_enough()
    ensures opening { (settings : Settings) → OpensAlike settings }
    ensures steps { (s : State Plain) (event : Event) → StepsAlike s event }
    ensures runs { (s : State Plain) (events : List Event) → RunsAlike s events }
{
    // The contract is the law.
}

/// At each place of a run, the reply to METADATA of all topics has exactly those that the bindings
/// in force there let the principal describe. They are in order of creation. The reply to
/// LIST_GROUPS has the groups that they let it describe, or all for a principal that may describe
/// the cluster. They are in order of their first commit.
#[tactic(auto, using(crate::proofs::Just::each_lists))]
pub fn listings_hold_what_is_described()
    ensures plain { (s : State Plain) (events : List Event) → EachLists plain_meaning events s }
    ensures retained { (s : State Retained) (events : List Event)
        → EachLists retained_meaning events s }
{
    // The contract is the law.
}

/// Whatever events come after the opening, each offset in a reply is at most
/// 9,223,372,036,854,775,807, the greatest at which a log may end. Each fetched record has an
/// offset below that.
#[tactic(auto, using(crate::proofs::Offsets::replies_within, crate::proofs::Offsets::kept_within))]
pub fn offsets_stay_within_the_limit()
    ensures plain { (settings : Settings) (events : List Event)
        → All OffsetsWithin (replies_of plain_meaning events (open_state settings)) }
    ensures retained { (settings : Settings) (events : List Event)
        → All OffsetsWithin (replies_of retained_meaning events (open_state settings)) }
{
    // The contract is the law.
}

/// OffsetsSpent, ProducerIdsSpent and SerialsSpent are out of reach. No reply has one of them while
/// these are at most 9,223,372,036,854,775,807 in all: the opening bindings, and the records,
/// drafts and producer ids that the events ask for.
#[tactic(auto, using(crate::proofs::Spending::nothing_spent, crate::proofs::Spending::nothing_kept_spent))]
pub fn nothing_is_spent_unasked()
    ensures plain { (settings : Settings) (events : List Event)
        → length settings.opening + asked_in events ≤ offset_limit
        → All SaysNothingSpent (replies_of plain_meaning events (open_state settings)) }
    ensures retained { (settings : Settings) (events : List Event)
        → length settings.opening + asked_in events ≤ offset_limit
        → All SaysNothingSpent (replies_of retained_meaning events (open_state settings)) }
{
    // The contract is the law.
}
