//! The lists that questions are about, read and in force.

ghost use Rattle.std.specs.Prelude.{◌≡◌, [], IfErr, IfOk, Ok, OnOk, false};
ghost use Rattle.kob.specs.Answers.{IsToldIn};
ghost use Rattle.kob.specs.Ending.{IsFailedStop, IsFailure};
ghost use Rattle.kob.specs.Lists.{files_of};
ghost use Rattle.kob_policy_text.specs.Policy.{FileMakes};

use crate::ending::Ending;
use crate::input::{InputFault, Kind, text_of};
use crate::policy_answers::{push_fault, push_omissions};
use crate::policy_options::{AnswerForm, Options};
use crate::report::{self, Report, tell, tell_lines};
use crate::source::{Source, say_fault};
use crate::stages::{Stage, Stages};
use kob_authorizer::CreateFault;
use kob_mistakes::{Lines, Meant, meant_by, push_misspelt, push_unquoted};
use kob_names::Text;
use kob_policy_text::{Judge, Policy, read_file};
use kob_script::ScriptError;
use std::alloc::AllocError;
use std::rt::{Clock, Files};

/// Why no more questions of a part are answered.
#[derive(Clone, Copy)]
pub(crate) enum Stop {
    /// What was reported ends the part so.
    Ended(Ending),
    Memory(AllocError),
}

impl From<AllocError> for Stop {
    ghost use Rattle.std.specs.Prelude.{◌≡◌, alloc_error};
    ghost use Rattle.kob.specs.declared.policy_lists.Stop.TheVariants.{Memory};

    ghost from_gives = { λ _ stop. stop ≡ Memory alloc_error };

    fn from(refused: AllocError) -> Stop {
        Stop::Memory(refused)
    }
}

/// The text of a list, whose fault was reported.
pub(crate) fn list_of<R: AllocGlobal + Files + Input + Eprint>(
    rt: &R,
    file: &str,
) -> Result<Vec<u8>, Stop>
    ensures { IfErr result IsFailedStop }
{
    match text_of(rt, Kind::List, file) {
        Ok(text) => Ok(text),
        Err(fault) => Err(Stop::Ended(say_unread(rt, file, &fault))),
    }
}

/// Reports a file that was not read, or the question that its name may be.
fn say_unread<R: AllocGlobal + Eprint>(rt: &R, file: &str, fault: &InputFault) -> Ending
    ensures { IsFailure result }
{
    let mut out = Vec::new(rt.alloc());
    match meant_by(rt.alloc(), file, fault.is_missing()) {
        Ok(Meant::Misspelt(kind)) => {
            let made = push_misspelt(&mut out, file, kind);
            tell_lines(rt, made, &out);
            Ending::Failed
        }
        Ok(Meant::Words) => {
            let ending = report::unread(rt, file, fault);
            let made = push_unquoted(&mut out, file);
            tell_lines(rt, made, &out);
            ending
        }
        Ok(Meant::File) | Err(_) => report::unread(rt, file, fault),
    }
}

/// Prints a fault in place of all that was to be printed, and says on standard error which word of
/// the line is wrong.
pub(crate) fn stop_by<R: AllocGlobal + Eprint>(
    rt: &R,
    form: AnswerForm,
    out: &mut Vec<u8>,
    source: &Source<'_>,
    error: ScriptError,
) -> Stop
    ensures told { result ≡ Stop.Ended Ending.Failed
        → IsToldIn form source.now.name.now error out.new.items }
    ensures failure { IsFailedStop result }
{
    match error {
        ScriptError::Memory(refused) => Stop::Memory(refused),
        ScriptError::Fault(fault) => {
            out.clear();
            match push_fault(rt.alloc(), form, out, source.name, fault) {
                Ok(()) => Stop::Ended(say_fault(rt, source, fault)),
                Err(refused) => Stop::Memory(refused),
            }
        }
    }
}

/// Which list it is: the only one, or the one that answers change from or to.
#[derive(Clone, Copy)]
pub(crate) enum Side {
    Only,
    Before,
    After,
}

/// A list in force.
#[derive(Drop)]
pub(crate) struct ListInForce {
    pub(crate) side: Side,
    pub(crate) judge: Judge,
}

/// The files of a list, besides those of `--policy`.
fn files_of(options: &Options, side: Side) -> &[Text]
    ensures { result.now ≡ files_of options.now side }
{
    match side {
        Side::Only => &[],
        Side::Before => options.before.as_slice(),
        Side::After => options.after.as_slice(),
    }
}

/// The policy of the files of a list, in force; without one, of standard input. Prints what is left
/// out of it, which is a fault without `--skip`.
pub(crate) fn judge_of<R: AllocGlobal + Clock + Files + Input + Eprint>(
    rt: &R,
    stages: Stages,
    out: &mut Vec<u8>,
    options: &Options,
    side: Side,
) -> Result<ListInForce, Stop>
    ensures side { IfOk result (λ listed. listed.side ≡ side) }
    ensures whole { IfOk result (λ listed. options.now.skip ≡ false → listed.judge.omissions ≡ []) }
    ensures failure { IfErr result IsFailedStop }
{
    let mut policy = Policy::new(rt.alloc());
    read_lists(
        rt,
        stages,
        out,
        &mut policy,
        options,
        files_of(options, side),
    )?;
    let judge = open_judge(rt, stages, out, options, policy)?;
    Ok(ListInForce { side, judge })
}

/// Reads the files of `--policy`, and then the others of a list.
fn read_lists<R: AllocGlobal + Clock + Files + Input + Eprint>(
    rt: &R,
    stages: Stages,
    out: &mut Vec<u8>,
    policy: &mut Policy,
    options: &Options,
    others: &[Text],
) -> Result<(), Stop>
    ensures { IfErr result IsFailedStop }
{
    for file in options.policy.as_slice() {
        read_list(rt, stages, options.form, out, policy, file.as_str())?;
    }
    for file in others {
        read_list(rt, stages, options.form, out, policy, file.as_str())?;
    }
    if options.policy.len() == 0 && options.before.len() == 0 {
        read_list(rt, stages, options.form, out, policy, "-")?;
    }
    read_releases(rt, options, out, policy)
}

fn open_judge<R: AllocGlobal + Clock + Eprint>(
    rt: &R,
    stages: Stages,
    out: &mut Vec<u8>,
    options: &Options,
    policy: Policy,
) -> Result<Judge, Stop>
    ensures policy { IfOk result (λ judge. judge ≡ policy) }
    ensures whole { IfOk result (λ judge. options.now.skip ≡ false → judge.omissions ≡ []) }
    ensures failure { IfErr result IsFailedStop }
{
    push_omissions(rt, options.form, out, &policy)?;
    if !policy.skipped().is_empty() {
        tell(rt, Report::Skipped(policy.skipped().len()));
    }
    if !options.skip && !policy.omissions().is_empty() {
        return Err(Stop::Ended(tell(rt, Report::LeftOut(policy.omissions().len()))));
    }
    stages.tell(rt, Stage::Open(policy.bindings().len()));
    match Judge::open(rt.alloc(), policy) {
        Ok(judge) => Ok(judge),
        Err(CreateFault::Memory(refused)) => Err(Stop::Memory(refused)),
        Err(CreateFault::TooMany | CreateFault::SerialsSpent) => {
            Err(Stop::Ended(tell(rt, Report::TooMany)))
        }
    }
}

/// Reads a file of a list after those that were read before.
fn read_list<R: AllocGlobal + Clock + Files + Input + Eprint>(
    rt: &R,
    stages: Stages,
    form: AnswerForm,
    out: &mut Vec<u8>,
    policy: &mut Policy,
    file: &str,
) -> Result<(), Stop>
    ensures { IfErr result IsFailedStop }
{
    let text = list_of(rt, file)?;
    let bindings = policy.bindings().len();
    let bytes = text.len();
    stages.tell(
        rt,
        Stage::Read {
            file,
            bytes,
            bindings,
        },
    );
    read_text(rt, form, out, policy, file, &text)
}

fn read_text<R: AllocGlobal + Eprint>(
    rt: &R,
    form: AnswerForm,
    out: &mut Vec<u8>,
    policy: &mut Policy,
    name: &str,
    text: &[u8],
) -> Result<(), Stop>
    ensures read { OnOk result (FileMakes name.now text.now policy.old (Ok policy.new)) }
    ensures failure { IfErr result IsFailedStop }
{
    let file = Text::copied(rt.alloc(), name)?;
    match read_file(rt.alloc(), policy, &file, text) {
        Ok(()) => Ok(()),
        Err(error) => {
            let source = Source {
                name,
                text,
                lines: Lines::Bindings,
            };
            Err(stop_by(rt, form, out, &source, error))
        }
    }
}

/// Reads each `--kafka VERSION` as a line `kafka VERSION` behind all files.
fn read_releases<R: AllocGlobal + Eprint>(
    rt: &R,
    options: &Options,
    out: &mut Vec<u8>,
    policy: &mut Policy,
) -> Result<(), Stop>
    ensures { IfErr result IsFailedStop }
{
    for release in options.kafka.as_slice() {
        let text = format!(in rt.alloc(); "kafka {}", release.as_str())?;
        read_text(rt, options.form, out, policy, "--kafka", text.as_bytes())?;
    }
    Ok(())
}
