//! The parts of a line that is printed.

ghost use Rattle.std.specs.Prelude.{◌≡◌, ◌++◌, OnOk, flat_map};
ghost use Rattle.kob_policy_text.specs.Parties.{party_text};
ghost use Rattle.kob_policy_text.specs.Parts.{part_text};

use crate::origin::Origin;
use crate::printed::{push_answer, push_origin_behind};
use crate::quoted::push_name;
use kob_names::{Text, Verdict};
use kob_policy_review::Names;
use kob_words::push_number;
use std::alloc::AllocError;

/// A part of a line.
#[derive(Clone, Copy)]
pub enum Part<'a> {
    Words(&'a str),
    /// A name of a list, between double quotes where a shell would change it.
    Name(&'a str),
    Number(u64),
    /// A principal or a host, or the first text for all others.
    Party(&'a str, &'a Option<Text>),
    /// A name, or those that begin so and that no longer pattern takes.
    Names(&'a Names),
    /// Yes or no, and the verdict.
    Answer(Verdict),
    /// From where a binding comes, behind a blank.
    Origin(Option<&'a Origin>),
}

/// A principal or a host, or the word for all others.
pub fn push_party(out: &mut Vec<u8>, all: &str, party: &Option<Text>) -> Result<(), AllocError>
    ensures { OnOk result (out.new.items ≡ out.old.items ++ party_text all.now party.now) }
{
    match party {
        None => out.extend_from_slice(all.as_bytes()),
        Some(party) => push_name(out, party.as_str()),
    }
}

/// Prints the parts of a line, one behind the other.
pub fn push_parts(out: &mut Vec<u8>, parts: &[Part<'_>]) -> Result<(), AllocError>
    ensures { OnOk result (out.new.items ≡ out.old.items ++ flat_map part_text parts.now) }
{
    for part in parts {
        match *part {
            Part::Words(text) => out.extend_from_slice(text.as_bytes())?,
            Part::Name(name) => push_name(out, name)?,
            Part::Number(number) => push_number(out, number)?,
            Part::Party(all, party) => push_party(out, all, party)?,
            Part::Names(Names::Exactly(name)) => push_name(out, name.as_str())?,
            Part::Names(Names::Below(start)) => {
                push_name(out, start.as_str())?;
                out.extend_from_slice(b"* (others)")?;
            }
            Part::Answer(verdict) => push_answer(out, verdict)?,
            Part::Origin(origin) => push_origin_behind(out, origin)?,
        }
    }
    Ok(())
}
