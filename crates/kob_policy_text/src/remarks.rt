//! What is remarked below the list of an answer: that nothing is on it, that no pattern takes the name
//! that was asked for, or that no binding names who was asked about.

ghost use Rattle.std.specs.Prelude.{◌≡◌, ◌++◌, OnOk};
ghost use Rattle.kob_policy_text.specs.Remarks.{below_line, nearest_text, no_binding_text};
ghost use Rattle.kob_policy_text.specs.Remarks.{no_taker_text, none_text, taking_text};

use crate::at_hand::names_named;
use crate::hints::push_told;
use crate::judge::Judge;
use crate::nearest::nearest_of;
use crate::question::Right;
use kob_names::{Principal, Text};
use std::alloc::{AllocError, Global};

/// That a list has nothing on it, if it is empty.
pub fn push_none(out: &mut Vec<u8>, is_empty: bool) -> Result<(), AllocError>
    ensures { OnOk result (out.new.items ≡ out.old.items ++ none_text is_empty) }
{
    if is_empty {
        out.extend_from_slice(b"    none\n")
    } else {
        Ok(())
    }
}

fn push_nearest(out: &mut Vec<u8>, nearest: &Option<Text>) -> Result<(), AllocError>
    ensures { OnOk result (out.new.items ≡ out.old.items ++ nearest_text nearest.now) }
{
    match nearest {
        Some(name) => push_told(out, "    the nearest name is ", name.as_str()),
        None => Ok(()),
    }
}

/// That no pattern takes the name of a right, and the nearest name of a pattern on such resources.
pub fn push_no_taker(
    alloc: Global,
    out: &mut Vec<u8>,
    judge: &Judge,
    right: &Right,
) -> Result<(), AllocError>
    ensures { OnOk result (out.new.items ≡ out.old.items ++ no_taker_text judge.now right.now) }
{
    let names = names_named(alloc, right.resource, judge.policy().bindings())?.into_vec();
    let nearest = nearest_of(alloc, right.name.as_str(), names.as_slice())?;
    push_told(out, "    no pattern takes ", right.name.as_str())?;
    push_nearest(out, &nearest)
}

/// The same, unless a pattern takes the name.
pub fn push_taking(
    alloc: Global,
    out: &mut Vec<u8>,
    judge: &Judge,
    right: &Right,
) -> Result<(), AllocError>
    ensures { OnOk result (out.new.items ≡ out.old.items ++ taking_text judge.now right.now) }
{
    if judge.is_name_taken(right.resource, right.name.as_str()) {
        return Ok(());
    }
    push_no_taker(alloc, out, judge, right)
}

/// That no binding names a principal.
pub fn push_no_binding(out: &mut Vec<u8>, principal: &Principal) -> Result<(), AllocError>
    ensures { OnOk result (out.new.items ≡ out.old.items ++ no_binding_text principal.now) }
{
    push_told(out, "    no binding names ", principal.as_str())
}

/// What is remarked below a list that stands on one line.
pub fn push_below_line(
    out: &mut Vec<u8>,
    judge: &Judge,
    principal: &Principal,
    is_empty: bool,
) -> Result<(), AllocError>
    ensures { OnOk result
        (out.new.items ≡ out.old.items ++ below_line judge.now principal.now is_empty) }
{
    if judge.is_named(principal) {
        push_none(out, is_empty)
    } else if is_empty {
        push_no_binding(out, principal)
    } else {
        Ok(())
    }
}
