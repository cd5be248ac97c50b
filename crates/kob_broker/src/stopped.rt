//! Runs that ran out of memory.

use kob_rights::Reply;
use std::alloc::AllocError;

/// A run that ran out of memory after `done` events, with their replies and the error of the
/// allocation that was refused.
#[derive(Debug, Drop)]
pub struct Stopped {
    pub done: usize,
    pub replies: Vec<Reply>,
    pub refused: AllocError,
}
