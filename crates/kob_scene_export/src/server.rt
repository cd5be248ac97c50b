//! Settings, as lines of `server.properties`.

ghost use Rattle.std.specs.Prelude.{◌≡◌, ◌++◌, OnOk};
ghost use Rattle.std.specs.List.{list_all};
ghost use Rattle.kob_scene_export.specs.Server.{are_written, authorizer_text, everyone_text};
ghost use Rattle.kob_scene_export.specs.Server.{head_text, is_super_byte, settings_text};
ghost use Rattle.kob_scene_export.specs.Server.{supers_text};

use crate::plain::push_mark;
use kob_names::{Principal, Settings};
use kob_words::push_bytes;
use std::alloc::AllocError;

/// Appends the comments above an export: how its lines are used. The error is out of memory; `out`
/// then ends with a part of the text.
#[tactic(auto, using(kob_words::proofs::Appending::appending))]
pub fn export_head(out: &mut Vec<u8>) -> Result<(), AllocError>
    ensures { OnOk result (out.new.items ≡ out.old.items ++ head_text) }
{
    out.extend_from_slice(b"# Put --bootstrap-server HOST:PORT after each command.\n")?;
    out.extend_from_slice(b"# A line that can't be used as it is is a comment; ")?;
    out.extend_from_slice(b"its escapes are those of scripts.\n")
}

/// Appends `authorizer.class.name`, `super.users` and `allow.everyone.if.no.acl.found`. The line of
/// super users is a comment if one of them has a byte that a property can't have, or `;`. The error
/// is out of memory; `out` then ends with a part of the text.
#[tactic(auto, using(kob_words::proofs::Appending::appending))]
pub fn export_settings(out: &mut Vec<u8>, settings: &Settings) -> Result<(), AllocError>
    ensures { OnOk result (out.new.items ≡ out.old.items ++ settings_text settings.now) }
{
    out.extend_from_slice(authorizer_text().as_bytes())?;
    push_supers(out, settings.supers.as_slice())?;
    out.extend_from_slice(everyone_text(settings.everyone).as_bytes())
}

fn everyone_text(everyone: bool) -> &'static str
    ensures { result.now ≡ everyone_text everyone }
{
    if everyone {
        "allow.everyone.if.no.acl.found=true\n"
    } else {
        "allow.everyone.if.no.acl.found=false\n"
    }
}

fn authorizer_text() -> &'static str
    ensures { result.now ≡ authorizer_text }
{
    "authorizer.class.name=org.apache.kafka.metadata.authorizer.StandardAuthorizer\n"
}

fn is_written(principal: &[u8]) -> bool
    ensures { result ≡ list_all is_super_byte principal.now }
{
    principal.iter().all(|byte| 32 <= *byte && *byte <= 126 && *byte != b';' && *byte != b'\\')
}

fn are_written(supers: &[Principal]) -> bool
    ensures { result ≡ are_written supers.now }
{
    supers
        .iter()
        .all(|principal| is_written(principal.as_str().as_bytes()))
}

#[tactic(auto, using(kob_words::proofs::Appending::appending))]
fn push_supers(out: &mut Vec<u8>, supers: &[Principal]) -> Result<(), AllocError>
    ensures { OnOk result (out.new.items ≡ out.old.items ++ supers_text supers.now) }
{
    let written = are_written(supers);
    push_mark(out, written)?;
    out.extend_from_slice(b"super.users=")?;
    for principal in supers {
        if written {
            out.extend_from_slice(principal.as_str().as_bytes())?;
        } else {
            push_bytes(out, principal.as_str().as_bytes())?;
        }
        out.extend_from_slice(b";")?;
    }
    out.extend_from_slice(b"\n")
}
