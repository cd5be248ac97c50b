//! Whether a plan is within the limits.

ghost use Rattle.std.specs.Prelude.{◌≡◌, ◌+◌, ◌*◌, ◌<◌, ◌≤◌, ◌↔◌, IsTrue, MatchOption, vec_len};
ghost use Rattle.std.specs.List.{sum_by};
ghost use Rattle.kob_pipeline.specs.Plans.{entries_planned, workers_planned};
ghost use Rattle.kob_shared.specs.Journals.{entry_limit, worker_limit};

use crate::plan::{ConsumerPlan, Plan, Service};
use kob_shared::{ENTRY_LIMIT, Script, WORKER_LIMIT};

/// Whether there are no more workers than a fleet may have.
pub(crate) fn has_few_workers(plan: &Plan) -> bool
    ensures { IsTrue result ↔ (workers_planned plan.now ≤ worker_limit) }
{
    let services = plan.services.len();
    let consumers = plan.consumers.len();
    let administrators = plan.administrators.len();
    services <= WORKER_LIMIT
        && consumers <= WORKER_LIMIT - services
        && administrators <= WORKER_LIMIT - services - consumers
}

/// Whether a journal has room for the first events, the administrators' requests and two calls for
/// each step of a service or a consumer.
pub(crate) fn has_room(plan: &Plan) -> bool
    ensures { IsTrue result ↔ (entries_planned plan.now ≤ entry_limit) }
{
    if plan.first.len() > ENTRY_LIMIT {
        return false;
    }
    let room = ENTRY_LIMIT - plan.first.len();
    let Some(room) = room_after_scripts(room, &plan.administrators) else {
        return false;
    };
    let Some(room) = room_after_services(room, &plan.services) else {
        return false;
    };
    room_after_consumers(room, &plan.consumers).is_some()
}

fn room_after_scripts(room: usize, scripts: &[Script]) -> Option<usize>
    ensures { MatchOption result (room < sum_by (λ s. vec_len s.requests) scripts.now)
        (λ left. left + sum_by (λ s. vec_len s.requests) scripts.now ≡ room) }
{
    let mut left = room;
    for script in scripts {
        if script.requests.len() > left {
            return None;
        }
        left -= script.requests.len();
    }
    Some(left)
}

fn room_after_services(room: usize, services: &[Service]) -> Option<usize>
    ensures { MatchOption result (room < 2 * sum_by (λ s. vec_len s.steps) services.now)
        (λ left. left + 2 * sum_by (λ s. vec_len s.steps) services.now ≡ room) }
{
    let mut left = room;
    for service in services {
        if service.steps.len() > left / 2 {
            return None;
        }
        left -= 2 * service.steps.len();
    }
    Some(left)
}

fn room_after_consumers(room: usize, consumers: &[ConsumerPlan]) -> Option<usize>
    ensures { MatchOption result (room < 2 * sum_by (λ s. vec_len s.steps) consumers.now)
        (λ left. left + 2 * sum_by (λ s. vec_len s.steps) consumers.now ≡ room) }
{
    let mut left = room;
    for consumer in consumers {
        if consumer.steps.len() > left / 2 {
            return None;
        }
        left -= 2 * consumer.steps.len();
    }
    Some(left)
}
