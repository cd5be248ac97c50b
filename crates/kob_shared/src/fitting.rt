//! Whether a reply may be one to a request, by its kind and by its offsets.

ghost use Rattle.std.specs.Prelude.{◌↔◌, IsTrue};
ghost use Rattle.kob_rights.specs.Requests.{BodyWithin, Fits, IsBodyOf, OffsetsWithin};

use kob_partition::OFFSET_LIMIT;
use kob_rights::{Body, Reply, Request};

/// Whether the reply may be one to the request: what was done has the body of the request's kind.
/// A denial and a refusal may be a reply to each request. Does not allocate.
pub fn fits(request: &Request, reply: &Reply) -> bool
    ensures { IsTrue result ↔ Fits request.now reply.now }
{
    match reply {
        Reply::Done(body) => is_body_of(request, body),
        Reply::Denied { .. } => true,
        Reply::Refused { .. } => true,
    }
}

fn is_body_of(request: &Request, body: &Body) -> bool
    ensures { IsTrue result ↔ IsBodyOf request.now body.now }
{
    match request {
        Request::Produce(_) | Request::ListOffsets(_) => matches!(body, Body::Offset(_)),
        Request::Fetch(_) => matches!(body, Body::Records(_)),
        Request::Metadata(_) => matches!(body, Body::Topics(_)),
        Request::OffsetCommit(_) => matches!(body, Body::Committed),
        Request::OffsetFetch(_) => matches!(body, Body::Commit(_)),
        Request::ListGroups => matches!(body, Body::Groups(_)),
        Request::DeleteGroups(_) | Request::DeleteTopics(_) => matches!(body, Body::Deleted),
        Request::CreateTopics(_) => matches!(body, Body::Created),
        Request::DeleteRecords(_) => matches!(body, Body::Start(_)),
        Request::InitProducerId => matches!(body, Body::Producer { .. }),
        Request::DescribeAcls(_) | Request::DeleteAcls(_) => matches!(body, Body::Bindings(_)),
        Request::CreateAcls(_) => matches!(body, Body::Serials(_)),
    }
}

/// Whether no offset in the reply is past the greatest, 9,223,372,036,854,775,807. A record's
/// offset must be below it. Does not allocate.
pub fn has_offsets_within(reply: &Reply) -> bool
    ensures { IsTrue result ↔ OffsetsWithin reply.now }
{
    match reply {
        Reply::Done(body) => body_is_within(body),
        Reply::Denied { .. } => true,
        Reply::Refused { .. } => true,
    }
}

fn body_is_within(body: &Body) -> bool
    ensures { IsTrue result ↔ BodyWithin body.now }
{
    match body {
        Body::Offset(offset) => *offset <= OFFSET_LIMIT,
        Body::Start(offset) => *offset <= OFFSET_LIMIT,
        Body::Commit(Some(offset)) => *offset <= OFFSET_LIMIT,
        Body::Records(records) => records
            .as_slice()
            .iter()
            .all(|entry| entry.0 < OFFSET_LIMIT),
        Body::Commit(None)
        | Body::Topics(_)
        | Body::Groups(_)
        | Body::Producer { .. }
        | Body::Bindings(_)
        | Body::Serials(_)
        | Body::Committed
        | Body::Created
        | Body::Deleted => true,
    }
}
