//! The names of steps, those of services and those of consumers.

ghost use Rattle.std.specs.Prelude.{◌≡◌, bytes_eq, find, option_copied};
ghost use Rattle.kob_scene_text.specs.StepNames.{step_named, step_text};

/// A step by its name.
#[derive(Clone, Copy, Debug, PartialEq, Eq)]
pub(crate) enum StepName {
    Record,
    Tick,
    Run,
    Restart,
    Sweep,
    Outbox,
    Business,
    Visible,
    Inbox,
}

const ALL_STEPS: [StepName; 9] = [
    StepName::Record,
    StepName::Tick,
    StepName::Run,
    StepName::Restart,
    StepName::Sweep,
    StepName::Outbox,
    StepName::Business,
    StepName::Visible,
    StepName::Inbox,
];

impl StepName {
    fn text(self) -> &'static str
        ensures { result.now ≡ step_text self }
    {
        match self {
            StepName::Record => "record",
            StepName::Tick => "tick",
            StepName::Run => "run",
            StepName::Restart => "restart",
            StepName::Sweep => "sweep",
            StepName::Outbox => "outbox",
            StepName::Business => "business",
            StepName::Visible => "visible",
            StepName::Inbox => "inbox",
        }
    }
}

/// The step of this name.
pub(crate) fn step_named(word: &[u8]) -> Option<StepName>
    ensures { result ≡ step_named word.now }
{
    step_among(ALL_STEPS.as_slice(), word).copied()
}

fn step_among<'s>(steps: &'s [StepName], word: &[u8]) -> Option<&'s StepName>
    ensures { option_copied result
        ≡ find (λ step. bytes_eq word.now (step_text step)) steps.entry.now }
{
    steps.iter().find(|step| word == step.text().as_bytes())
}
