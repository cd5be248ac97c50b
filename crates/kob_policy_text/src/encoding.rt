//! The encodings of a file: UTF-8, and UTF-16 behind a byte order mark.

ghost use Rattle.std.specs.Prelude.{◌≡◌, IfOk, OnOk};
ghost use Rattle.kob_policy_text.specs.Encoding.{no_units, read_units, unit_of};
ghost use Rattle.kob_policy_text.specs.Encoding.{plain_text, utf16_text};
ghost use Rattle.kob_policy_text.specs.Encoding.{with_unit_byte};
ghost use Rattle.kob_policy_text.specs.Encoding as seen;
ghost use Rattle.kob_policy_text.specs.Outcomes.{GivesAt};
ghost use Rattle.kob_script.specs.declared.fault.FaultKind.TheVariants.{BadText};
ghost use Rattle.kob_script.specs.declared.fault.ScriptError.TheVariants as script_error;

use kob_script::{Fault, FaultKind, ScriptError};
use std::alloc::{AllocError, Global};
use std::marker::Model;

/// Units of UTF-16, and a byte that has no second one.
#[derive(Drop)]
struct Units {
    ended: Vec<u16>,
    first: Option<u8>,
}

impl Model for Units {
    ghost use Rattle.kob_policy_text.specs.Encoding as seen;

    ghost Value = { seen.Units };

    ghost view = { λ units. record { ended = units.ended.items; first = units.first } };
}

/// A unit of two bytes in their order.
fn unit_of(low_first: bool, first: u8, second: u8) -> u16
    ensures { result ≡ unit_of low_first first second }
{
    if low_first {
        u16::from(first) + 256 * u16::from(second)
    } else {
        256 * u16::from(first) + u16::from(second)
    }
}

impl Units {
    fn new(alloc: Global) -> Units
        ensures { result ≡ no_units }
    {
        Units {
            ended: Vec::new(alloc),
            first: None,
        }
    }

    fn read(&mut self, low_first: bool, byte: u8) -> Result<(), AllocError>
        ensures { OnOk result (self.new ≡ with_unit_byte low_first self.old byte) }
    {
        match self.first {
            None => self.first = Some(byte),
            Some(first) => {
                self.ended.push(unit_of(low_first, first, byte))?;
                self.first = None;
            }
        }
        Ok(())
    }
}

/// The units that bytes are.
#[tactic(auto, using(crate::proofs::Numbering::units_read, crate::proofs::Numbering::units_end))]
fn units_in(alloc: Global, low_first: bool, bytes: &[u8]) -> Result<Units, AllocError>
    ensures { IfOk result (λ units. units ≡ read_units low_first no_units bytes.now) }
{
    let mut units = Units::new(alloc);
    for byte in bytes {
        units.read(low_first, *byte)?;
    }
    Ok(units)
}

fn not_text() -> ScriptError
    ensures { result ≡ script_error.Fault (record { line = 1; kind = BadText }) }
{
    ScriptError::Fault(Fault {
        line: 1,
        kind: FaultKind::BadText,
    })
}

#[tactic(auto, unfolding(crate::specs::Encoding::utf16_text))]
fn utf16_text(alloc: Global, low_first: bool, bytes: &[u8]) -> Result<Vec<u8>, ScriptError>
    ensures { GivesAt (λ text. text.items) result (utf16_text low_first bytes.now) }
{
    let units = units_in(alloc, low_first, bytes)?;
    if units.first.is_some() {
        return Err(not_text());
    }
    match String::from_utf16(alloc, &units.ended)? {
        Ok(text) => Ok(text.into_bytes()),
        Err(_) => Err(not_text()),
    }
}

/// The text of a file in UTF-8, without its byte order mark: a copy if the mark is one of UTF-16.
/// The fault is `BadText` on line 1, for UTF-16 with a byte too many or a surrogate alone. UTF-8 is
/// not checked here.
pub fn plain_text(alloc: Global, text: &[u8]) -> Result<Vec<u8>, ScriptError>
    ensures { GivesAt (λ text. text.items) result (plain_text text.now) }
{
    if text.starts_with(&[0xff, 0xfe]) {
        utf16_text(alloc, true, text.get(2..).unwrap_or(&[]))
    } else if text.starts_with(&[0xfe, 0xff]) {
        utf16_text(alloc, false, text.get(2..).unwrap_or(&[]))
    } else if text.starts_with(&[0xef, 0xbb, 0xbf]) {
        Ok(Vec::from_slice(alloc, &text[3..])?)
    } else {
        Ok(Vec::from_slice(alloc, text)?)
    }
}
