//! What stands below a no: a name that no pattern takes, a principal that no binding names.

ghost use Rattle.std.specs.Prelude.{◌≡◌, ◌++◌, OnOk};
ghost use Rattle.kob_policy_text.specs.Hints.{told_text, unnamed_text, untaken_text};

use crate::asked::Asked;
use crate::judge::Judge;
use crate::parts::{Part, push_parts};
use kob_names::{Principal, Verdict};
use std::alloc::AllocError;

#[tactic(auto, using(kob_words::proofs::Appending::appending), unfolding(crate::specs::Hints::told_text))]
/// What is said of a name.
pub fn push_told<'a>(out: &mut Vec<u8>, what: &'a str, name: &'a str) -> Result<(), AllocError>
    ensures { OnOk result (out.new.items ≡ out.old.items ++ told_text what.now name.now) }
{
    push_parts(
        out,
        &[Part::Words(what), Part::Name(name), Part::Words("\n")],
    )
}

/// That no pattern takes the name, if no allow matches.
pub fn push_untaken(
    out: &mut Vec<u8>,
    judge: &Judge,
    verdict: Verdict,
    asked: &Asked<'_>,
) -> Result<(), AllocError>
    ensures { OnOk result
        (out.new.items ≡ out.old.items ++ untaken_text judge.now verdict asked.now) }
{
    match verdict {
        Verdict::NoAllow if !judge.is_taken(asked) => {
            push_told(out, "    no pattern takes ", asked.name)
        }
        _ => Ok(()),
    }
}

/// That no binding names who asks, if the answer is no.
pub fn push_unnamed(
    out: &mut Vec<u8>,
    judge: &Judge,
    allowed: bool,
    principal: &Principal,
) -> Result<(), AllocError>
    ensures { OnOk result
        (out.new.items ≡ out.old.items ++ unnamed_text judge.now allowed principal.now) }
{
    if allowed || judge.is_named(principal) {
        return Ok(());
    }
    push_told(out, "    no binding names ", principal.as_str())
}
