//! What follows from the definitions, by which the bodies are empty.

ghost use Rattle.std.specs.Prelude.{◌≡◌, ◌≤◌, ℕ, List, Option, Some, None, Result, Ok, Err, false};
ghost use Rattle.kob_script.specs.CommandLines.{asks_by_acl, events_of, line_fault, faults_in};
ghost use Rattle.kob_script.specs.CommandLines.{row_fault, CliArgs};
ghost use Rattle.kob_script.specs.Words.{Word, FaultKind, IsAmong, rank, counted};
ghost use Rattle.kob_script.specs.Script.{script_of, HasNoAclLine, ReadsAs, Script};
ghost use Rattle.kob_script.specs.declared.fault.Fault.{Fault};
ghost use Rattle.kob_script.specs.declared.command.Place.{Place};

/// A script without `acl` lines has only one reading.
#[tactic(auto, using(crate::proofs::CheckedLines::one_reading))]
pub fn plain_scripts_have_one_reading()
    ensures { (text : List ℕ) (read : Result Script Fault)
        → HasNoAclLine text → ReadsAs text read → read ≡ script_of text }
{}

/// Over a whole line, faults come in the order of their kinds. The fault of the words of a row is one
/// that some word has, and no word has one of an earlier kind. A line whose words have a fault is
/// read as that fault. A line whose words have none asks for one event, unless it asks by `acl`.
pub fn faults_come_in_their_order()
    ensures found { (places : List Place) (words : List Word) (kind : FaultKind)
        → row_fault (Some places) words ≡ Some kind → IsAmong kind (faults_in places words) }
    ensures first { (places : List Place) (words : List Word) (kind other : FaultKind)
        → row_fault (Some places) words ≡ Some kind → IsAmong other (faults_in places words)
        → rank kind ≤ rank other }
    ensures none { (places : List Place) (words : List Word) (kind : FaultKind)
        → row_fault (Some places) words ≡ None → IsAmong kind (faults_in places words) → ⊥ }
    ensures read { (answer : Option CliArgs) (words : List Word) (kind : FaultKind)
        → line_fault words ≡ Some kind → events_of answer words ≡ Err kind }
    ensures asks { (answer : Option CliArgs) (words : List Word) → line_fault words ≡ None
        → asks_by_acl words ≡ false → counted (events_of answer words) ≡ Ok 1 }
{}
