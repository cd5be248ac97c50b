//! Principals of the kind `User`, and the names that are in place of what is left out.

ghost use Rattle.std.specs.Prelude.{◌≡◌};
ghost use Rattle.kob_policy_text.specs.Listing.{held_name, host_in, is_other_kind, left_out_of, user_in};
ghost use Rattle.kob_script.specs.Words.{Gives, GivesSeen, text_in};

use crate::item::LeftOut;
use bstr::ByteSlice;
use kob_names::{Draft, Host, Principal, Text};
use kob_script::{FaultKind, LineError, host_of, principal_of};
use std::alloc::Global;

/// In place of a principal of another kind than `User`.
pub const OTHER_PRINCIPAL: &str = "User:(another kind of principal)";
/// In place of the principal, if the operation is not supported.
pub const OTHER_OPERATION: &str = "User:(another operation)";
/// In place of the name of a resource of another kind.
pub const OTHER_RESOURCE: &str = "(another kind of resource)";

/// The bytes as text. The fault is `BadText`.
pub fn text_in(bytes: &[u8]) -> Result<&str, LineError>
    ensures { GivesSeen (λ text. text.now) result (text_in bytes.entry.now) }
{
    match bytes.to_str() {
        Ok(text) => Ok(text),
        Err(_) => Err(LineError::Fault(FaultKind::BadText)),
    }
}

/// A copy of the bytes as text.
pub fn copied_text(alloc: Global, bytes: &[u8]) -> Result<Text, LineError>
    ensures { Gives result (text_in bytes.now) }
{
    Ok(Text::copied(alloc, text_in(bytes)?)?)
}

/// The host that bytes name.
pub fn host_in(alloc: Global, bytes: &[u8]) -> Result<Host, LineError>
    ensures { Gives result (host_in bytes.now) }
{
    host_of(alloc, text_in(bytes)?)
}

/// Whether the text names a principal of another kind than `User`.
pub fn is_other_kind(text: &str) -> bool
    ensures { result ≡ is_other_kind text.now }
{
    match text.split_once(':') {
        None => false,
        Some((kind, _)) => kind != "User",
    }
}

/// The name of a principal, or what is in place of one of another kind.
pub fn held_name(text: &str) -> &str
    ensures { result.now ≡ held_name text.entry.now }
{
    if is_other_kind(text) {
        OTHER_PRINCIPAL
    } else {
        text
    }
}

/// The principal that bytes name, or the one in place of a principal of another kind.
pub fn user_in(alloc: Global, bytes: &[u8]) -> Result<Principal, LineError>
    ensures { Gives result (user_in bytes.now) }
{
    let text = text_in(bytes)?;
    principal_of(alloc, held_name(text))
}

/// Why a binding of these parts is left out, if it is.
pub fn left_out_of(draft: &Draft) -> Option<LeftOut>
    ensures { result ≡ left_out_of draft.now }
{
    let principal = draft.principal.as_str();
    if draft.pattern.name.as_str() == OTHER_RESOURCE {
        Some(LeftOut::Resource)
    } else if principal == OTHER_PRINCIPAL {
        Some(LeftOut::Principal)
    } else if principal == OTHER_OPERATION {
        Some(LeftOut::Operation)
    } else {
        None
    }
}
