//! Texts that are played or exported.

ghost use Rattle.std.specs.Prelude.{◌≡◌, ◌≢◌, ◌++◌, OnOk, false, map, option_map};
ghost use Rattle.kob.specs.Ending.{ending_of_play};
ghost use Rattle.kob.specs.Headings.{can_differ, file_line, heading_text};
ghost use Rattle.kob.specs.Marks.{mistake_text};
ghost use Rattle.kob.specs.Remarks.{doubts_remark, misuse_text, quotes_remark, remarks_text};
ghost use Rattle.kob_mistakes.specs.Quoted.{quoted_name};
ghost use Rattle.kob_mistakes.specs.Records.{doubtful_state};

use crate::ending::{Ending, ending_of_play};
use crate::exporting::export;
use crate::input::{Kind, text_of};
use crate::marks::push_mistake;
use crate::options::ExportForm;
use crate::report::{self, FileReport, Report, tell, tell_file, tell_lines, write};
use crate::watched::ReportedOutput;
use kob_mistakes::{
    Mistake, doubtful_state, mistake_in, push_doubtful, push_misused, push_quoted, quoted_name,
    word_at,
};
use kob_names::Text;
use kob_scene_play::{Ended, Form, PlayFault, play_text, push_json_string};
use kob_scene_text::SceneFault;
use std::alloc::{AllocError, Global};
use std::rt::{Clock, Files};

/// What is done with a text.
#[derive(Clone, Copy)]
pub enum Work<'a> {
    /// Plays it. The answers have this form, and long work is reported if it is watched.
    Play { form: Form, is_watched: bool },
    /// Exports it in this form; of several services, the connector of the one with this name.
    Export(ExportForm, Option<&'a str>),
}

/// Does the work on each file, or on standard input if none is named. Returns the worst end.
#[tactic(auto, using(crate::proofs::Ends::not_worse))]
pub fn do_files<R: AllocGlobal + Clock + Files + Input + Print + Eprint>(
    rt: &R,
    work: Work<'_>,
    files: &[Text],
) -> Ending
    ensures { can_differ work.entry ≡ false → result ≢ Ending.Differs }
{
    if files.is_empty() {
        return do_file(rt, work, "-");
    }
    let mut ending = Ending::Whole;
    for file in files {
        ending = ending.worse(do_headed(rt, work, file.as_str(), files.len() > 1));
    }
    ending
}

/// Plays or exports one of the files, after a line with its name if there are several.
fn do_headed<R: AllocGlobal + Clock + Files + Input + Print + Eprint>(
    rt: &R,
    work: Work<'_>,
    file: &str,
    headed: bool,
) -> Ending
    ensures { can_differ work.entry ≡ false → result ≢ Ending.Differs }
{
    if headed {
        let mut out = Vec::new(rt.alloc());
        let heading = match push_heading(&mut out, work, file) {
            Ok(()) => write(rt, file, &out),
            Err(refused) => tell(rt, Report::OutOfMemory(file, refused)),
        };
        if heading != Ending::Whole {
            return heading;
        }
    }
    do_file(rt, work, file)
}

/// A line with the name of a file: `== FILE`, or an object of JSON.
#[tactic(auto, using(kob_words::proofs::Appending::appending))]
fn push_heading(out: &mut Vec<u8>, work: Work<'_>, file: &str) -> Result<(), AllocError>
    ensures { OnOk result (out.new.items ≡ out.old.items ++ heading_text work.entry file.now) }
{
    match work {
        Work::Play {
            form: Form::Plain,
            ..
        } => push_file_line(out, file),
        Work::Play {
            form: Form::Trace,
            ..
        } => push_file_line(out, file),
        Work::Play {
            form: Form::Json,
            ..
        } => {
            out.extend_from_slice(b"{\"file\":")?;
            push_json_string(out, file.as_bytes())?;
            out.extend_from_slice(b"}\n")
        }
        Work::Export(_, _) => push_file_line(out, file),
    }
}

#[tactic(auto, using(kob_words::proofs::Appending::appending))]
fn push_file_line(out: &mut Vec<u8>, file: &str) -> Result<(), AllocError>
    ensures { OnOk result (out.new.items ≡ out.old.items ++ file_line file.now) }
{
    out.extend_from_slice(b"== ")?;
    out.extend_from_slice(file.as_bytes())?;
    out.extend_from_slice(b"\n")
}

fn do_file<R: AllocGlobal + Clock + Files + Input + Print + Eprint>(
    rt: &R,
    work: Work<'_>,
    file: &str,
) -> Ending
    ensures { can_differ work.entry ≡ false → result ≢ Ending.Differs }
{
    let text = match text_of(rt, Kind::Scene, file) {
        Ok(text) => text,
        Err(fault) => return report::unread(rt, file, &fault),
    };
    match work {
        Work::Play { form, is_watched } => {
            let mut writer = ReportedOutput::new(rt, file, is_watched);
            let played = play_text(rt.alloc(), form, &text, &mut writer);
            report_play(rt, file, &text, played)
        }
        Work::Export(form, service) => export(rt, form, service, file, &text),
    }
}

/// Reports what went wrong with a scene, or what was not as it was expected to be, and returns how it
/// ended.
fn report_play<R: AllocGlobal + Eprint>(
    rt: &R,
    name: &str,
    text: &[u8],
    played: Result<Ended, PlayFault>,
) -> Ending
    ensures { result ≡ ending_of_play played }
{
    match played {
        Ok(Ended::Clean) => say_remarks(rt, name, text),
        Ok(Ended::Unmet(unmet)) => {
            let (count, line) = (unmet.count, unmet.line);
            tell_file(rt, FileReport::Unmet { name, count, line });
            say_remarks(rt, name, text);
        }
        Ok(Ended::Fault(fault)) => {
            say_fault(rt, name, text, fault);
        }
        Ok(Ended::Stopped(fault)) | Err(fault) => {
            report::stopped(rt, name, fault);
        }
    }
    ending_of_play(played)
}

/// Says which name has quotes that a shell would have removed, and which record has a state that is
/// the word of a variant.
fn say_remarks<R: AllocGlobal + Eprint>(rt: &R, name: &str, text: &[u8]) {
    let mut out = Vec::new(rt.alloc());
    let made = push_remarks(rt.alloc(), &mut out, name, text);
    tell_lines(rt, made, &out);
}

#[tactic(auto, using(kob_words::proofs::Appending::appending))]
fn push_remarks(alloc: Global, out: &mut Vec<u8>, name: &str, text: &[u8]) -> Result<(), AllocError>
    ensures { OnOk result (out.new.items ≡ out.old.items ++ remarks_text name.now text.now) }
{
    push_quotes(alloc, out, name, text)?;
    push_doubts(alloc, out, name, text)
}

fn push_quotes(alloc: Global, out: &mut Vec<u8>, name: &str, text: &[u8]) -> Result<(), AllocError>
    ensures { OnOk result (out.new.items
        ≡ out.old.items ++ quotes_remark name.now (quoted_name text.now)) }
{
    match quoted_name(alloc, text)? {
        Some((line, word)) => push_quoted(out, name, line, word),
        None => Ok(()),
    }
}

fn push_doubts(alloc: Global, out: &mut Vec<u8>, name: &str, text: &[u8]) -> Result<(), AllocError>
    ensures { OnOk result (out.new.items
        ≡ out.old.items ++ doubts_remark name.now (doubtful_state text.now)) }
{
    match doubtful_state(alloc, text)? {
        Some((line, word)) => push_doubtful(out, name, line, word),
        None => Ok(()),
    }
}

/// Says which line has a fault, which word of it is wrong, and what was expected.
pub fn say_fault<R: AllocGlobal + Eprint>(
    rt: &R,
    name: &str,
    text: &[u8],
    fault: SceneFault,
) -> Ending
    ensures { result ≡ Ending.Failed }
{
    match mistake_in(rt.alloc(), text, fault) {
        Ok(mistake) => {
            let mut out = Vec::new(rt.alloc());
            let made = push_fault(rt, &mut out, name, fault, &mistake);
            tell_lines(rt, made, &out);
            Ending::Failed
        }
        Err(_) => report::fault(rt, name, fault),
    }
}

/// The fault of a scene, or what the word is that its line means otherwise, and what was expected.
#[tactic(auto, using(kob_words::proofs::Appending::appending))]
fn push_fault<R: AllocGlobal + Eprint>(
    rt: &R,
    out: &mut Vec<u8>,
    name: &str,
    fault: SceneFault,
    mistake: &Mistake<'_>,
) -> Result<(), AllocError>
    ensures { OnOk result (out.new.items ≡ out.old.items
        ++ (misuse_text name.now fault.line mistake.now.misuse
        (map (λ word. word.now) mistake.now.words.items) mistake.now.place
        ++ mistake_text (map (λ word. word.now) mistake.now.words.items) mistake.now.place
        mistake.now.form.now mistake.now.nearest
        (option_map (λ hint. hint.now) mistake.now.hint))) }
{
    match mistake.misuse {
        Some(misuse) => {
            let word = word_at(&mistake.words, mistake.place);
            let worker = word_at(&mistake.words, 0);
            push_misused(out, name, fault.line, misuse, word, worker)?;
            push_mistake(out, mistake)
        }
        None => {
            report::fault(rt, name, fault);
            push_mistake(out, mistake)
        }
    }
}
