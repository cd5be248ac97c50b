//! How answers are printed: origins, verdicts, bindings and rights.

ghost use Rattle.std.specs.Prelude.{◌≡◌, ◌++◌, OnOk, Some};
ghost use Rattle.kob_policy_text.specs.Answers.{answer_text, left_out_word};
ghost use Rattle.kob_policy_text.specs.Answers.{line_at, line_by, may_text, omission_line};
ghost use Rattle.kob_policy_text.specs.Answers.{origin_behind, origin_by, right_text, yes_or_no};
ghost use Rattle.kob_policy_text.specs.Answers.{binding_line};
ghost use Rattle.std.specs.Option.{option_copied};

use crate::asked::Asked;
use crate::item::LeftOut;
use crate::judge::{Judge, deciding};
use crate::origin::{Omission, Origin};
use crate::parts::{Part, push_parts};
use crate::quoted::push_binding;
use kob_names::{Binding, Verdict};
use kob_words::{operation_name, push_bytes, push_number, resource_name};
use std::alloc::AllocError;

/// `yes` or `no`.
pub fn yes_or_no(yes: bool) -> &'static str
    ensures { result.now ≡ yes_or_no yes }
{
    if yes { "yes" } else { "no" }
}

/// Yes or no, and the verdict.
pub fn push_answer(out: &mut Vec<u8>, verdict: Verdict) -> Result<(), AllocError>
    ensures { OnOk result (out.new.items ≡ out.old.items ++ answer_text verdict) }
{
    match verdict {
        Verdict::DeniedBy(serial) => {
            out.extend_from_slice(b"no deny:")?;
            push_number(out, serial)
        }
        Verdict::AllowedBy(serial) => {
            out.extend_from_slice(b"yes allow:")?;
            push_number(out, serial)
        }
        Verdict::NoAllow => out.extend_from_slice(b"no no-allow"),
        Verdict::Super => out.extend_from_slice(b"yes super"),
        Verdict::NoAclFound => out.extend_from_slice(b"yes no-acl-found"),
    }
}

/// From where a binding comes, behind a blank.
pub fn push_origin_behind(out: &mut Vec<u8>, origin: Option<&Origin>) -> Result<(), AllocError>
    ensures { OnOk result
        (out.new.items ≡ out.old.items ++ origin_behind (option_copied origin.entry)) }
{
    match origin {
        None => Ok(()),
        Some(origin) => {
            out.extend_from_slice(b" ")?;
            push_bytes(out, origin.file.as_str().as_bytes())?;
            out.extend_from_slice(b":")?;
            push_number(out, origin.line)
        }
    }
}

/// The first origin of the binding with a serial.
pub fn origin_by(judge: &Judge, serial: Option<u64>) -> Option<&Origin>
    ensures { option_copied result ≡ origin_by judge.entry.now serial }
{
    let place = judge.place_of(serial?)?;
    judge.policy().origins().get(place)
}

#[tactic(auto, using(kob_words::proofs::Appending::appending))]
fn push_binding_line(
    out: &mut Vec<u8>,
    serial: u64,
    binding: &Binding,
    origin: Option<&Origin>,
) -> Result<(), AllocError>
    ensures { OnOk result (out.new.items ≡ out.old.items
        ++ binding_line serial binding.now (option_copied origin.entry)) }
{
    out.extend_from_slice(b"  ")?;
    push_binding(out, serial, binding)?;
    push_origin_behind(out, origin)?;
    out.extend_from_slice(b"\n")
}

/// The line of the binding at a place.
pub fn push_line_at(out: &mut Vec<u8>, judge: &Judge, place: usize) -> Result<(), AllocError>
    ensures { OnOk result (out.new.items ≡ out.old.items ++ line_at judge.now (Some place)) }
{
    let policy = judge.policy();
    let serial = judge.serials().get(place).copied().unwrap_or(0);
    match policy.bindings().get(place) {
        None => Ok(()),
        Some(binding) => push_binding_line(out, serial, binding, policy.origins().get(place)),
    }
}

/// The line of the first binding with a serial.
pub fn push_line_by(out: &mut Vec<u8>, judge: &Judge, serial: u64) -> Result<(), AllocError>
    ensures { OnOk result (out.new.items ≡ out.old.items ++ line_by judge.now (Some serial)) }
{
    match judge.place_of(serial) {
        None => Ok(()),
        Some(place) => push_line_at(out, judge, place),
    }
}

/// An answer, and below it the binding that decides.
pub fn push_may(out: &mut Vec<u8>, judge: &Judge, verdict: Verdict) -> Result<(), AllocError>
    ensures { OnOk result (out.new.items ≡ out.old.items ++ may_text judge.now verdict) }
{
    push_parts(
        out,
        &[Part::Words("  "), Part::Answer(verdict), Part::Words("\n")],
    )?;
    match deciding(verdict) {
        None => Ok(()),
        Some(serial) => push_line_by(out, judge, serial),
    }
}

/// An operation on a resource.
pub fn push_right(out: &mut Vec<u8>, asked: &Asked<'_>) -> Result<(), AllocError>
    ensures { OnOk result (out.new.items ≡ out.old.items ++ right_text asked.now) }
{
    push_parts(
        out,
        &[
            Part::Words(operation_name(asked.operation)),
            Part::Words(" "),
            Part::Words(resource_name(asked.resource)),
            Part::Words(" "),
            Part::Name(asked.name),
        ],
    )
}

/// The word for what was left out.
pub fn left_out_word(what: LeftOut) -> &'static str
    ensures { result.now ≡ left_out_word what }
{
    match what {
        LeftOut::Resource => "resource",
        LeftOut::Principal => "principal",
        LeftOut::Operation => "operation",
    }
}

/// What was left out, on a line of its own.
#[tactic(auto, using(kob_words::proofs::Appending::appending), unfolding(crate::specs::Answers::omission_line))]
pub fn push_omission(out: &mut Vec<u8>, omission: &Omission) -> Result<(), AllocError>
    ensures { OnOk result (out.new.items ≡ out.old.items ++ omission_line omission.now) }
{
    push_parts(
        out,
        &[
            Part::Words("left out"),
            Part::Origin(Some(&omission.origin)),
            Part::Words(" "),
            Part::Words(left_out_word(omission.what)),
        ],
    )?;
    if omission.denies {
        out.extend_from_slice(b", a deny: a yes may be wrong\n")
    } else {
        out.extend_from_slice(b"\n")
    }
}
