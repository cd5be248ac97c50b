//! A scene from its text to its output.

ghost use Rattle.std.specs.Prelude.{◌≡◌, IfOk, OnOk};
ghost use Rattle.std.specs.Io.KnownBytes.{Appends};
ghost use Rattle.kob_scene_play.specs.Scenes.{IsWritten};
ghost use Rattle.kob_scene_play.specs.declared.text.Ended.TheVariants as ended;
ghost use Rattle.kob_scene_play.specs.Forms.{fault_shown};

use crate::fault::PlayFault;
use crate::form::{Form, Shown};
use crate::json::push_json;
use crate::playing::play;
use crate::stage::Unmet;
use kob_scene_text::{SceneError, SceneFault, print_scene_fault, read_scene};
use std::alloc::{AllocError, Global};
use std::io::Write;

/// How a scene ended, once its output was written.
#[derive(Clone, Copy)]
pub enum Ended {
    /// All steps were played, and all that was expected is so.
    Clean,
    /// All steps were played, and so many things that were expected are not so.
    Unmet(Unmet),
    /// The text has a fault, and no step was played.
    Fault(SceneFault),
    /// The scene stopped after some of the steps.
    Stopped(PlayFault),
}

/// Reads a scene, plays it, and writes its answers in this form and nothing else. The fault is
/// `WriteFailed`, or `Memory` before the first step.
#[tactic(auto, using(crate::proofs::Written::scene_written, crate::proofs::Written::fault_written))]
pub fn play_text<W: Write>(
    alloc: Global,
    form: Form,
    text: &[u8],
    writer: &mut W,
) -> Result<Ended, PlayFault>
    ensures { IfOk result
        (IsWritten form text.now (W.contents writer.old) (W.contents writer.new)) }
{
    let shown = Shown::of(alloc, form, text)?;
    match read_scene(alloc, text) {
        Ok(scene) => play(alloc, &shown, scene, writer),
        Err(SceneError::Memory(refused)) => Err(PlayFault::Memory(refused)),
        Err(SceneError::Fault(fault)) => write_fault(alloc, form, fault, writer),
    }
}

fn write_fault<W: Write>(
    alloc: Global,
    form: Form,
    fault: SceneFault,
    writer: &mut W,
) -> Result<Ended, PlayFault>
    ensures ended { IfOk result (λ end. end ≡ ended.Fault fault) }
    ensures written { OnOk result (Appends (W.contents writer.old) (W.contents writer.new)
        (fault_shown form fault)) }
{
    let line = fault_line(alloc, form, fault)?;
    match writer.write_all(&line) {
        Ok(()) => Ok(Ended::Fault(fault)),
        Err(_) => Err(PlayFault::WriteFailed),
    }
}

fn fault_line(alloc: Global, form: Form, fault: SceneFault) -> Result<Vec<u8>, AllocError>
    ensures { IfOk result (λ line. line.items ≡ fault_shown form fault) }
{
    let mut line = Vec::new(alloc);
    print_scene_fault(&mut line, fault)?;
    match form {
        Form::Plain => Ok(line),
        Form::Trace => Ok(line),
        Form::Json => {
            let mut object = Vec::new(alloc);
            push_json(&mut object, fault.line, &line)?;
            Ok(object)
        }
    }
}
