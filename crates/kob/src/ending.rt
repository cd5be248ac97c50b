//! How the program ends.

ghost use Rattle.std.specs.Prelude.{◌≡◌};
ghost use Rattle.kob.specs.Ending.{ending_of_answers, ending_of_fault, ending_of_play, status_of, worse};

use kob_scene_play::{Ended, PlayFault};

/// The ends of a piece of work, and of all of it, from the best to the worst.
#[derive(Clone, Copy, PartialEq, Eq)]
pub enum Ending {
    /// All was played, exported or answered.
    Whole,
    /// An answer changes from one list to another, or is not the one that was expected.
    Differs,
    /// A fault, or something that could not be read or written.
    Failed,
    OutOfMemory,
}

impl Ending {
    /// The exit status.
    pub fn status(self) -> u8
        ensures { result ≡ status_of self }
    {
        match self {
            Ending::Whole => 0,
            Ending::Failed => 1,
            Ending::OutOfMemory => 2,
            Ending::Differs => 3,
        }
    }

    /// The worse of two ends.
    pub fn worse(self, other: Ending) -> Ending
        ensures ending { result ≡ worse self other }
        ensures well { result ≡ Ending.Whole
            → (self ≡ Ending.Whole) × (other ≡ Ending.Whole) }
    {
        match (self, other) {
            (Ending::OutOfMemory, _) | (_, Ending::OutOfMemory) => Ending::OutOfMemory,
            (Ending::Failed, _) | (_, Ending::Failed) => Ending::Failed,
            (Ending::Differs, _) | (_, Ending::Differs) => Ending::Differs,
            (Ending::Whole, Ending::Whole) => Ending::Whole,
        }
    }
}

/// The end of a scene that a fault stopped.
pub fn ending_of_fault(fault: PlayFault) -> Ending
    ensures { result ≡ ending_of_fault fault }
{
    match fault {
        PlayFault::Memory(_) => Ending::OutOfMemory,
        PlayFault::JournalFull => Ending::Failed,
        PlayFault::Store => Ending::Failed,
        PlayFault::NoWorker => Ending::Failed,
        PlayFault::TooMany => Ending::Failed,
        PlayFault::NotLost => Ending::Failed,
        PlayFault::NotDue => Ending::Failed,
        PlayFault::WriteFailed => Ending::Failed,
    }
}

/// The end of a scene that was played.
pub fn ending_of_play(played: Result<Ended, PlayFault>) -> Ending
    ensures { result ≡ ending_of_play played }
{
    match played {
        Ok(Ended::Clean) => Ending::Whole,
        Ok(Ended::Unmet(_)) => Ending::Differs,
        Ok(Ended::Fault(_)) => Ending::Failed,
        Ok(Ended::Stopped(fault)) => ending_of_fault(fault),
        Err(fault) => ending_of_fault(fault),
    }
}

/// The end of answers, of which one may be otherwise than is expected.
pub fn ending_of_answers(differs: bool) -> Ending
    ensures { result ≡ ending_of_answers differs }
{
    if differs {
        Ending::Differs
    } else {
        Ending::Whole
    }
}
