//! Pipelines: what reaches an inbox, also if calls are lost, workers restart and rights are
//! revoked.

ghost use Rattle.std.specs.Prelude.{IfOk};
ghost use Rattle.kob_pipeline.specs.Pipelines.{IsPipeline};

use crate::fixtures::READY;
use crate::gates::{Hold, Holding};
use crate::pipeline_end::{Due, breaks_no_premise, call_laws, is_due};
use crate::plans::{Act, Cast, TICK, TWO, plan};
use kob_pipeline::{Loss, PipelineEnd, PipelineFault, Plan, pipeline};
use std::alloc::Global;
use std::process::Abort;
use std::sync::Wait;
use std::thread::Threads;

/// Runs a plan.
pub(crate) fn run<R: Abort + Threads + Wait + Sync>(
    rt: &R,
    alloc: Global,
    plan: &Plan,
    gate: &Holding<'_>,
) -> Result<PipelineEnd, PipelineFault>
    ensures { IfOk result (IsPipeline plan.now) }
{
    assert!(rt; plan.is_runnable());
    pipeline(rt, alloc, plan, gate)
}

/// A plan, how its workers are held, and what it leaves.
#[derive(Clone, Copy)]
struct Played<'t> {
    name: &'t str,
    cast: Cast<'t>,
    holds: &'t [Hold],
    due: Due<'t>,
}

/// Worker 2 begins once the service has made its three calls.
const AFTER_FOUR: Hold = Hold {
    worker: 2,
    number: 1,
    other: 1,
    comes_to: 4,
};

const PLAYED: [Played<'_>; 6] = [
    Played {
        name: "pipeline_two_events",
        cast: Cast {
            service: &TWO,
            groups: &["g"],
            revoked: false,
        },
        holds: &[AFTER_FOUR],
        due: Due {
            calls: 6,
            topic: &[0xA, 0xB],
            commit: Some(2),
        },
    },
    Played {
        name: "two_consumers",
        cast: Cast {
            service: &TWO,
            groups: &["g", "g2"],
            revoked: false,
        },
        holds: &[
            AFTER_FOUR,
            Hold {
                worker: 3,
                number: 1,
                other: 1,
                comes_to: 4,
            },
        ],
        due: Due {
            calls: 9,
            topic: &[0xA, 0xB],
            commit: Some(2),
        },
    },
    // The broker has the second batch already. It is sent again under a new producer id, and so
    // gets a second offset; the consumer skips the repeat.
    Played {
        name: "reply_lost_then_restart",
        cast: Cast {
            service: &[
                Act::Note(0xA),
                Act::Note(0xB),
                TICK,
                Act::Tick(Loss::AfterServe),
                Act::Restart,
                TICK,
                TICK,
            ],
            groups: &["g"],
            revoked: false,
        },
        holds: &[Hold {
            worker: 2,
            number: 1,
            other: 1,
            comes_to: 6,
        }],
        due: Due {
            calls: 8,
            topic: &[0xA, 0xB, 0xB],
            commit: Some(3),
        },
    },
    // The broker did not receive the second batch, and receives it with the next tick.
    Played {
        name: "request_lost",
        cast: Cast {
            service: &[
                Act::Note(0xA),
                Act::Note(0xB),
                TICK,
                Act::Tick(Loss::BeforeServe),
                TICK,
                TICK,
            ],
            groups: &["g"],
            revoked: false,
        },
        holds: &[Hold {
            worker: 2,
            number: 1,
            other: 1,
            comes_to: 5,
        }],
        due: Due {
            calls: 6,
            topic: &[0xA, 0xB],
            commit: Some(2),
        },
    },
    // An id that was recorded before and a text that is too long are not recorded. A row without a
    // topic stops the router at each tick. None of them ends the pipeline.
    Played {
        name: "refused_records_and_bad_topics_are_passed_over",
        cast: Cast {
            service: &[
                Act::Note(0xA),
                TICK,
                Act::Note(0xA),
                Act::TooLong(0xC),
                Act::Note(0xB),
                TICK,
                Act::Unroutable(0xD),
                TICK,
                TICK,
            ],
            groups: &["g"],
            revoked: false,
        },
        holds: &[AFTER_FOUR],
        due: Due {
            calls: 6,
            topic: &[0xA, 0xB],
            commit: Some(2),
        },
    },
    // The right to the group is revoked between the FETCH and the OFFSET_COMMIT.
    Played {
        name: "revoked_while_consuming",
        cast: Cast {
            service: &TWO,
            groups: &["g"],
            revoked: true,
        },
        holds: &[
            AFTER_FOUR,
            Hold {
                worker: 3,
                number: 1,
                other: 2,
                comes_to: 3,
            },
            Hold {
                worker: 2,
                number: 3,
                other: 3,
                comes_to: 2,
            },
        ],
        due: Due {
            calls: 7,
            topic: &[0xA, 0xB],
            commit: None,
        },
    },
];

/// The plan leaves what is expected, the laws apply to it, and no hold is given up.
fn play<R: Abort + Threads + Wait + Sync>(rt: &R, alloc: Global, played: Played<'_>) {
    let name = played.name;
    let plan = plan(rt, alloc, played.cast);
    let gate = Holding::at(played.holds, 0);
    let mut end = run(rt, alloc, &plan, &gate).ok().expect(rt, name);
    assert!(rt; breaks_no_premise(&plan, &end), "{name}");
    call_laws(&plan, &end);
    assert!(rt; is_due(alloc, &mut end, played.due), "{name}");
    assert!(rt; gate.all_came(), "{name}");
}

#[test]
fn each_plan_leaves_what_is_due(rt: HostRuntime) {
    for played in PLAYED {
        play(&rt, rt.alloc(), played);
    }
}

/// Why a plan of 500,000 sweeps and consumers for these groups is refused.
fn refusal<R: Abort + Threads + Wait + Sync>(
    rt: &R,
    alloc: Global,
    groups: &[&str],
    gate: &Holding<'_>,
) -> PipelineFault {
    let sweeps = vec![in alloc; Act::Sweep; 500_000].expect(rt, READY);
    let cast = Cast {
        service: &sweeps,
        groups,
        revoked: false,
    };
    let plan = plan(rt, alloc, cast);
    run(rt, alloc, &plan, gate).err().expect(rt, "a refusal")
}

#[test]
fn too_many_steps(rt: HostRuntime) {
    let gate = Holding::at(&[], 0);
    let long = refusal(&rt, rt.alloc(), &[], &gate);
    assert!(rt; matches!(&long, PipelineFault::JournalFull));
    let many = refusal(&rt, rt.alloc(), &["g"; 64], &gate);
    assert!(rt; matches!(&many, PipelineFault::TooManyWorkers));
    assert_eq!(rt; gate.calls(), 0);
}
