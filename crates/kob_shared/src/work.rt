//! What the workers of a fleet do.

ghost use Rattle.std.specs.Prelude.{IfOk, ℕ};

use crate::faults::CallFault;
use crate::notes::Notes;
use std::alloc::Global;
use std::sync::Wait;

/// What workers ask before each request. A test can hold a worker there.
pub trait Gate {
    /// A worker calls it before its k-th request, from 1, and once more after its last.
    fn before(&self, worker: usize, k: usize);
}

/// The result of a worker: its notes, and what else its kind of work leaves.
#[derive(Drop)]
pub struct Done<E> {
    pub notes: Notes,
    pub end: E,
}

/// What a worker of a fleet does in a thread of its own.
pub trait Work {
    ghost use Rattle.kob_shared.specs.Journals.{Noted};

    /// What all workers share.
    type Shared;

    /// What it leaves besides its notes, including a fault of its own.
    type End;

    // as a worker of this number, its notes and what it leaves are as it says
    ghost keeps: { Self → ℕ → Noted → Self.End → Type 0 };

    /// Does the work as this worker, over what all workers share. It asks the gate before each
    /// request.
    fn work<R: Wait, G: Gate>(
        &self,
        rt: &R,
        alloc: Global,
        worker: usize,
        shared: &Self::Shared,
        gate: &G,
    ) -> Result<Done<Self::End>, CallFault>
        ensures { IfOk result (λ d. keeps self.now worker d.notes d.end) };
}
