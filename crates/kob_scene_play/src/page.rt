//! What is written of a scene, in pieces.

ghost use Rattle.std.specs.Prelude.{◌≡◌, ◌++◌, [], IfOk, OnErr, OnOk, length};
ghost use Rattle.std.specs.Io.KnownBytes.{Appends};
ghost use Rattle.kob_scene_play.specs.Forms.{shown_text, stopped_shown};
ghost use Rattle.kob_scene_play.specs.Steps.{Writes};

use crate::fault::PlayFault;
use crate::form::{Showing, Shown, line_at, push_head};
use crate::json::push_json;
use crate::needs::push_last_note;
use crate::output::{Output, push_counted};
use kob_shared::Journal;
use std::alloc::{AllocError, Global};
use std::io::Write;

/// What is shown is written once it has this number of bytes.
const PIECE: usize = 65_536;

/// The maximum length of the last line of an output.
const LAST_LINE: usize = 128;

/// What is shown and not yet written, and the number of answers so far.
#[derive(Drop)]
pub(crate) struct Page {
    pub(crate) text: Vec<u8>,
    pub(crate) told: u64,
}

impl Page {
    /// A page with nothing on it. The error is out of memory.
    pub(crate) fn open(alloc: Global) -> Result<Page, AllocError>
        ensures text { IfOk result (λ page. page.text.items ≡ []) }
        ensures told { IfOk result (λ page. page.told ≡ 0) }
    {
        let text = Vec::with_capacity(alloc, PIECE + LAST_LINE)?;
        Ok(Page { text, told: 0 })
    }

    /// Shows the answers to the step at a place. Before the step, the journal had so many entries.
    /// On an error the page is as it was.
    #[tactic(auto, using(kob_words::proofs::Appending::appending))]
    pub(crate) fn show(
        &mut self,
        alloc: Global,
        showing: Showing<'_>,
        place: usize,
        before: usize,
        journal: &Journal,
        out: &Output,
    ) -> Result<(), AllocError>
        ensures text { OnOk result (self.new.text.items ≡ self.old.text.items
            ++ shown_text showing.entry.shown.now showing.entry.lines.now place before journal.now
            out.now.text.items) }
        ensures told { OnOk result (self.new.told ≡ out.now.told) }
        ensures kept { OnErr result (self.new.text.items ≡ self.old.text.items) }
        ensures count { OnErr result (self.new.told ≡ self.old.told) }
    {
        match showing.shown {
            Shown::Plain => self.add(&out.text, out.told),
            Shown::Trace(texts) => {
                let mut text = Vec::new(alloc);
                push_head(&mut text, texts.as_slice(), showing.lines, place)?;
                text.extend_from_slice(&out.text)?;
                push_last_note(alloc, &mut text, before, journal)?;
                self.add(&text, out.told)
            }
            Shown::Json => {
                let mut text = Vec::new(alloc);
                push_json(&mut text, line_at(showing.lines, place), &out.text)?;
                self.add(&text, out.told)
            }
        }
    }

    /// Adds a text, up to which there are so many answers. On an error the page is as it was.
    fn add(&mut self, text: &[u8], told: u64) -> Result<(), AllocError>
        ensures text { OnOk result (self.new.text.items ≡ self.old.text.items ++ text.now) }
        ensures told { OnOk result (self.new.told ≡ told) }
        ensures kept { OnErr result (self.new.text.items ≡ self.old.text.items) }
        ensures count { OnErr result (self.new.told ≡ self.old.told) }
    {
        self.text.extend_from_slice(text)?;
        self.told = told;
        Ok(())
    }

    /// Writes the page, once it is long enough.
    pub(crate) fn write_piece<W: Write>(&mut self, writer: &mut W) -> Result<(), PlayFault>
        ensures written { OnOk result (Writes (W.contents writer.old) self.old.text.items
            (W.contents writer.new) self.new.text.items []) }
        ensures told { self.new.told ≡ self.old.told }
    {
        if self.text.len() < PIECE {
            return Ok(());
        }
        self.write(writer)
    }

    /// Writes the page.
    pub(crate) fn write<W: Write>(&mut self, writer: &mut W) -> Result<(), PlayFault>
        ensures written { OnOk result (Appends (W.contents writer.old) (W.contents writer.new)
            self.old.text.items) }
        ensures empty { OnOk result (self.new.text.items ≡ []) }
        ensures told { self.new.told ≡ self.old.told }
    {
        if writer.write_all(&self.text).is_err() {
            return Err(PlayFault::WriteFailed);
        }
        self.text.clear();
        Ok(())
    }

    /// Writes the page, and that the scene stopped after its answers.
    pub(crate) fn stop<W: Write>(&mut self, shown: &Shown, writer: &mut W) -> Result<(), PlayFault>
        ensures { OnOk result (Appends (W.contents writer.old) (W.contents writer.new)
            (self.old.text.items ++ stopped_shown shown.now self.old.told)) }
    {
        self.write(writer)?;
        push_stopped(&mut self.text, shown, self.told)?;
        self.write(writer)
    }
}

fn push_stopped(out: &mut Vec<u8>, shown: &Shown, told: u64) -> Result<(), AllocError>
    ensures { OnOk result (out.new.items ≡ out.old.items ++ stopped_shown shown.now told) }
{
    match shown {
        Shown::Plain | Shown::Trace(_) => push_counted(out, b"stopped after ", told, b"\n"),
        Shown::Json => {
            let before = b"{\"kind\":\"stopped\",\"words\":[\"after\",\"";
            push_counted(out, before, told, b"\"]}\n")
        }
    }
}
