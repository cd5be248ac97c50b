//! A line with or without producer ids.

ghost use Rattle.std.specs.Prelude.{◌≡◌};
ghost use Rattle.kob_scene_play.specs.Services.{asked_as};

use kob_connections::{Connection, RecordedServer, Serve};
use kob_names::Batch;
use kob_rights::{Produce, Reply, Request};
use kob_shared::CallFault;
use std::alloc::Global;

/// A broker with its journal, which gets each batch without its producer id if it is bare. The
/// journal has the requests as they were sent.
#[derive(Drop)]
pub(crate) struct SentServer<'a> {
    pub(crate) below: RecordedServer<'a>,
    pub(crate) is_bare: bool,
}

/// A line over it. Its calls are those that were made on it.
pub(crate) type SentLine<'a> = Connection<SentServer<'a>>;

impl<'a> Serve for SentServer<'a> {
    ghost use Rattle.kob_connections.specs.Servers.{RefusesRecorded, ServesRecorded};

    /// The broker serves the request at once, as it is sent.
    ghost serves = { λ old new request there. (new.is_bare ≡ old.is_bare)
        × ServesRecorded old.below new.below (asked_as old.is_bare request) there };

    ghost refuses = { λ old request fault. RefusesRecorded old.below request fault };

    fn serve(&mut self, alloc: Global, request: Request) -> Result<Option<Reply>, CallFault> {
        self.below.serve(alloc, asked_as(self.is_bare, request))
    }
}

/// The request as the broker gets it: without the producer id of its batch, or as it is.
fn asked_as(is_bare: bool, request: Request) -> Request
    ensures { result ≡ asked_as is_bare request }
{
    if !is_bare {
        return request;
    }
    match request {
        Request::Produce(asked) => Request::Produce(Produce {
            topic: asked.topic,
            partition: asked.partition,
            batch: Batch {
                idem: None,
                records: asked.batch.records,
            },
        }),
        other => other,
    }
}
