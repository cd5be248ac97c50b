//! What a search finds: the first deny and the first allow that hit the question.

ghost use Rattle.std.specs.Prelude.{◌≡◌};
ghost use Rattle.kob_authorizer.specs.Index.{lesser, lesser_hits, no_hits};

/// The serials of a deny and of an allow, if there are any.
#[derive(Clone, Copy)]
pub struct Hits {
    pub deny: Option<u64>,
    pub allow: Option<u64>,
}

impl Hits {
    pub fn none() -> Hits
        ensures { result ≡ no_hits }
    {
        Hits {
            deny: None,
            allow: None,
        }
    }

    /// The lesser serial of each permission.
    pub fn or_lesser(self, other: Hits) -> Hits
        ensures { result ≡ lesser_hits self other }
    {
        Hits {
            deny: lesser(self.deny, other.deny),
            allow: lesser(self.allow, other.allow),
        }
    }
}

/// The lesser serial, if there are two.
fn lesser(one: Option<u64>, other: Option<u64>) -> Option<u64>
    ensures { result ≡ lesser one other }
{
    match (one, other) {
        (Some(one), Some(other)) => Some(one.min(other)),
        (Some(one), None) => Some(one),
        (None, other) => other,
    }
}
