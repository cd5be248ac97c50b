//! The objects of an array of JSON.

ghost use Rattle.std.specs.Prelude.{◌≡◌, OnOk};
ghost use Rattle.kob_policy_text.specs.Objects as seen;
ghost use Rattle.kob_policy_text.specs.Objects.{at_stage};
ghost use Rattle.kob_policy_text.specs.Objects.{begun_on, is_array};
ghost use Rattle.kob_policy_text.specs.Objects.{no_objects, objects_by, objects_in};
ghost use Rattle.kob_policy_text.specs.Objects.{read_bytes, read_line, with_byte, with_end};
ghost use Rattle.kob_policy_text.specs.Objects.{with_object_byte, wrong_on};
ghost use Rattle.kob_policy_text.specs.Outcomes.{GivesAt};
ghost use Rattle.kob_script.specs.Script.{lines_in};

use crate::joined::Numbered;
use bstr::ByteSlice;
use kob_script::{Fault, FaultKind, ScriptError};
use std::alloc::{AllocError, Global};
use std::marker::Model;
use std::mem;

/// What may come next in an array of objects. `Quoted` and `Escaped` are in a string of an object,
/// and `Wrong` is behind what no JSON has.
#[derive(Clone, Copy)]
pub enum Stage {
    Before,
    First,
    Next,
    Between,
    Inside,
    Quoted,
    Escaped,
    Closed,
    Wrong,
}

/// The objects that ended, and the one that began, with its line.
#[derive(Drop)]
struct Objects {
    ended: Vec<Numbered>,
    begun: Vec<u8>,
    line: u64,
    stage: Stage,
}

impl Model for Objects {
    ghost use Rattle.kob_policy_text.specs.Objects as seen;

    ghost Value = { seen.Objects };

    ghost view = { λ objects. record {
      ended = objects.ended.items;
      begun = objects.begun.items;
      line = objects.line;
      stage = objects.stage;
    } };
}

impl Objects {
    fn new(alloc: Global) -> Objects
        ensures { result ≡ no_objects }
    {
        Objects {
            ended: Vec::new(alloc),
            begun: Vec::new(alloc),
            line: 1,
            stage: Stage::Before,
        }
    }

    fn go(&mut self, stage: Stage)
        ensures { self.new ≡ at_stage self.old stage }
    {
        self.stage = stage;
    }

    fn refuse(&mut self, line: u64)
        ensures { self.new ≡ wrong_on self.old line }
    {
        self.line = line;
        self.stage = Stage::Wrong;
    }

    fn begin(&mut self, line: u64) -> Result<(), AllocError>
        ensures { OnOk result (self.new ≡ begun_on self.old line) }
    {
        self.begun.clear();
        self.begun.push(b'{')?;
        self.line = line;
        self.stage = Stage::Inside;
        Ok(())
    }

    fn add(&mut self, stage: Stage, byte: u8) -> Result<(), AllocError>
        ensures { OnOk result (self.new ≡ with_byte self.old stage byte) }
    {
        self.begun.push(byte)?;
        self.stage = stage;
        Ok(())
    }

    fn end(&mut self, alloc: Global) -> Result<(), AllocError>
        ensures { OnOk result (self.new ≡ with_end self.old) }
    {
        self.begun.push(b'}')?;
        let text = mem::replace(&mut self.begun, Vec::new(alloc));
        self.ended.push(Numbered {
            line: self.line,
            text,
        })?;
        self.stage = Stage::Between;
        Ok(())
    }

    /// Takes a byte of the text. Blanks outside objects are skipped.
    #[tactic(auto, unfolding(crate::specs::Objects::with_object_byte))]
    fn read(&mut self, alloc: Global, line: u64, byte: u8) -> Result<(), AllocError>
        ensures { OnOk result (self.new ≡ with_object_byte self.old line byte) }
    {
        match (self.stage, byte) {
            (Stage::Inside, b'}') => self.end(alloc)?,
            (Stage::Inside, b'"') => self.add(Stage::Quoted, byte)?,
            (Stage::Inside, b'{' | b'[') => self.refuse(line),
            (Stage::Inside, _) => self.add(Stage::Inside, byte)?,
            (Stage::Quoted, b'"') => self.add(Stage::Inside, byte)?,
            (Stage::Quoted, b'\\') => self.add(Stage::Escaped, byte)?,
            (Stage::Quoted | Stage::Escaped, _) => self.add(Stage::Quoted, byte)?,
            (Stage::Wrong, _) | (_, b' ' | b'\t' | b'\n' | b'\r') => {}
            (Stage::Before, b'[') => self.go(Stage::First),
            (Stage::First | Stage::Next, b'{') => self.begin(line)?,
            (Stage::First | Stage::Between, b']') => self.go(Stage::Closed),
            (Stage::Between, b',') => self.go(Stage::Next),
            _ => self.refuse(line),
        }
        Ok(())
    }

    #[tactic(auto, using(crate::proofs::Numbering::bytes_read, crate::proofs::Numbering::bytes_end))]
    fn read_bytes(&mut self, alloc: Global, line: u64, text: &[u8]) -> Result<(), AllocError>
        ensures { OnOk result (self.new ≡ read_bytes self.old line text.now) }
    {
        for byte in text {
            self.read(alloc, line, *byte)?;
        }
        Ok(())
    }

    /// The objects, if the array ended.
    fn finish(self) -> Result<Vec<Numbered>, ScriptError>
        ensures { GivesAt (λ lines. lines.items) result (objects_by self.stage self) }
    {
        match self.stage {
            Stage::Closed => Ok(self.ended),
            _ => {
                let (line, kind) = (self.line, FaultKind::BadLine);
                Err(ScriptError::Fault(Fault { line, kind }))
            }
        }
    }

    fn read_line(&mut self, alloc: Global, line: u64, text: &[u8]) -> Result<(), AllocError>
        ensures { OnOk result (self.new ≡ read_line self.old line text.now) }
    {
        self.read_bytes(alloc, line, text)?;
        self.read(alloc, line, b'\n')
    }
}

/// The objects of an array, each with the number of the line on which it begins. The fault is
/// `BadLine`: on the line that no array of flat objects has, or where it does not end, on the line
/// of its last object.
pub fn objects_in(alloc: Global, text: &[u8]) -> Result<Vec<Numbered>, ScriptError>
    ensures { GivesAt (λ lines. lines.items) result (objects_in (lines_in text.now)) }
{
    let mut objects = Objects::new(alloc);
    let mut number: u64 = 0;
    for line in text.lines() {
        number += 1;
        objects.read_line(alloc, number, line)?;
    }
    objects.finish()
}

/// Whether the text is an array of objects.
#[tactic(auto, unfolding(crate::specs::Objects::is_array))]
pub fn is_array(text: &[u8]) -> bool
    ensures { result ≡ is_array text.now }
{
    match text.trim_start() {
        [b'[', rest @ ..] => {
            let inside = rest.trim_start();
            inside.starts_with(b"{") || inside.starts_with(b"]")
        }
        _ => false,
    }
}
