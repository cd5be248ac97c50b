//! Super users: who is one, and which come and go.

ghost use Rattle.std.specs.Prelude.{◌≡◌, IfOk, filter};
ghost use Rattle.kob_authorizer.specs.Decide.{is_super};
ghost use Rattle.kob_policy_review.specs.Users.{is_gained};

use kob_authorizer::Authorizer;
use kob_names::{Principal, Text};
use std::alloc::{AllocError, Global};

/// Whether a principal, by its text, is one of these super users.
pub fn is_super(supers: &[Principal], principal: &str) -> bool
    ensures { result ≡ is_super supers.now principal.now }
{
    supers.iter().any(|user| principal == user.as_str())
}

/// The super users of `after` that are none of `before`, in their order. Turned round, those that
/// are lost.
#[tactic(auto, using(std::proofs::lemmas::List::Elements::filter_more))]
pub fn gained_supers(
    alloc: Global,
    before: &Authorizer,
    after: &Authorizer,
) -> Result<Vec<Text>, AllocError>
    ensures { IfOk result (λ found. found.items
        ≡ filter (is_gained before.now.contents.supers) after.now.contents.supers) }
{
    let mut found = Vec::new(alloc);
    for user in after.supers() {
        if !is_super(before.supers(), user.as_str()) {
            found.push(Text::copied(alloc, user.as_str())?)?;
        }
    }
    Ok(found)
}
