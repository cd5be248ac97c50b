//! What follows from the definitions.

ghost use Rattle.std.specs.Prelude.{ℕ, List, Result};
ghost use Rattle.kob_script.specs.declared.fault.Fault.{Fault};
ghost use Rattle.kob_script.specs.declared.script.Script.{Script};
ghost use Rattle.kob_script.specs.Script.{ReadsAs as ReadsAsScript};
ghost use Rattle.kob_scene_text.specs.Scenes.{ReadsAs, HasNoWorkerLine, as_scene};
ghost use Rattle.kob_rights.specs.declared.event.Event.{Event};
ghost use Rattle.kob_names.specs.declared.draft.Draft.{Draft};
ghost use Rattle.kob_scene_text.specs.Rereading.{IsDraft, IsLine, ReadsBack, ReadsBackBinding};
ghost use Rattle.kob_scene_text.specs.Rereading.{ReadsBackInScene};

/// What a text without lines of workers may be read as by `kob_script`, a script or its first fault,
/// it may be read as by `read_scene`.
pub fn scripts_are_scenes()
    ensures { (text : List ℕ) (read : Result Script Fault)
        → HasNoWorkerLine text → ReadsAsScript text read → ReadsAs text (as_scene read) }
{
    // By the definitions.
}

/// What an entry of a journal prints between its worker and its outcome is, as a line of a script,
/// read as the entry's event and as nothing else, if a script can write that event.
pub fn entries_read_back()
    ensures { (event : Event) → IsLine event → ReadsBack event }
{
    // By the definitions.
}

/// The same of a line in a scene, whichever workers it declares: the entry's event is its step.
pub fn entries_read_back_in_scenes()
    ensures { (event : Event) → IsLine event → ReadsBackInScene event }
{
    // By the definitions.
}

/// What a printed binding has behind its serial, also in a reply, is read as the words of
/// `create-acl`, and they write that binding and nothing else, if a script can write it.
pub fn bindings_read_back()
    ensures { (draft : Draft) → IsDraft draft → ReadsBackBinding draft }
{
    // By the definitions.
}
