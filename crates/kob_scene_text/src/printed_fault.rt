//! How a scene's fault is printed.

ghost use Rattle.std.specs.Prelude.{◌≡◌, ◌++◌, OnOk};
ghost use Rattle.kob_scene_text.specs.Reading.{kind_text, scene_fault_text};

use crate::fault::{SceneFault, SceneFaultKind};
use kob_script::{Fault, print_fault};
use kob_words::push_number;
use std::alloc::AllocError;

/// Prints the line `fault line LINE KIND` with its line feed. The error is out of memory; `out` has
/// then grown by a part of it.
#[tactic(auto, using(kob_words::proofs::Appending::appending))]
pub fn print_scene_fault(out: &mut Vec<u8>, fault: SceneFault) -> Result<(), AllocError>
    ensures { OnOk result (out.new.items ≡ out.old.items ++ scene_fault_text fault) }
{
    if let SceneFaultKind::Script(kind) = fault.kind {
        return print_fault(
            out,
            Fault {
                line: fault.line,
                kind,
            },
        );
    }
    out.extend_from_slice(b"fault line ")?;
    push_number(out, fault.line)?;
    out.extend_from_slice(b" ")?;
    out.extend_from_slice(kind_text(fault.kind).as_bytes())?;
    out.extend_from_slice(b"\n")
}

/// The name of a kind that scripts do not have.
fn kind_text(kind: SceneFaultKind) -> &'static str
    ensures { result.now ≡ kind_text kind }
{
    match kind {
        SceneFaultKind::Script(_) => "",
        SceneFaultKind::UnknownWorker => "UnknownWorker",
        SceneFaultKind::BadWorkerName => "BadWorkerName",
        SceneFaultKind::NameTaken => "NameTaken",
        SceneFaultKind::BadPartitions => "BadPartitions",
        SceneFaultKind::BadMax => "BadMax",
        SceneFaultKind::BadRoute => "BadRoute",
        SceneFaultKind::BadId => "BadId",
        SceneFaultKind::NoLaw => "NoLaw",
    }
}
