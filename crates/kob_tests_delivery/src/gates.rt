//! A gate that holds workers at their requests, for a bounded number of turns.

use kob_shared::Gate;
use std::sync::atomic::{AtomicBool, AtomicU64, Ordering};
use std::thread;

/// The number of turns that a worker waits before the gate gives up.
const TURNS: u32 = 10_000_000;

/// A worker waits before its request of this number until another has come to one of its own.
#[derive(Clone, Copy)]
pub(crate) struct Hold {
    pub(crate) worker: usize,
    pub(crate) number: usize,
    pub(crate) other: usize,
    pub(crate) comes_to: u64,
}

/// Holds workers at their requests, and counts its calls.
#[derive(Drop)]
pub(crate) struct Holding<'t> {
    holds: &'t [Hold],
    /// How many workers are held at their second request until all of them have come there, or 0.
    meeting: u64,
    come: AtomicU64,
    /// The calls of worker 1, of worker 2, and of all others.
    first: AtomicU64,
    second: AtomicU64,
    others: AtomicU64,
    gave_up: AtomicBool,
}

impl<'t> Holding<'t> {
    pub(crate) fn at(holds: &'t [Hold], meeting: u64) -> Holding<'t> {
        Holding {
            holds,
            meeting,
            come: AtomicU64::new(0),
            first: AtomicU64::new(0),
            second: AtomicU64::new(0),
            others: AtomicU64::new(0),
            gave_up: AtomicBool::new(false),
        }
    }

    /// Whether no worker was released before its time, and all who are to meet have met.
    pub(crate) fn all_came(&self) -> bool {
        self.come.load(Ordering::SeqCst) == self.meeting && !self.gave_up.load(Ordering::SeqCst)
    }

    pub(crate) fn calls(&self) -> u64 {
        self.first
            .load(Ordering::SeqCst)
            .wrapping_add(self.second.load(Ordering::SeqCst))
            .wrapping_add(self.others.load(Ordering::SeqCst))
    }

    /// The number of the request that a worker has come to.
    fn number_of(&self, worker: usize) -> &AtomicU64 {
        match worker {
            1 => &self.first,
            2 => &self.second,
            _ => &self.others,
        }
    }

    fn wait_for(&self, counter: &AtomicU64, comes_to: u64) {
        for _ in 0..TURNS {
            if counter.load(Ordering::SeqCst) >= comes_to {
                return;
            }
            thread::yield_now();
        }
        self.gave_up.store(true, Ordering::SeqCst);
    }
}

impl<'t> Gate for Holding<'t> {
    fn before(&self, worker: usize, k: usize) {
        self.number_of(worker).fetch_add(1, Ordering::SeqCst);
        if self.meeting > 0 && k == 2 {
            self.come.fetch_add(1, Ordering::SeqCst);
            self.wait_for(&self.come, self.meeting);
        }
        for hold in self.holds {
            if hold.worker == worker && hold.number == k {
                self.wait_for(self.number_of(hold.other), hold.comes_to);
            }
        }
    }
}
