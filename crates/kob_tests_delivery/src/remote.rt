//! A server of one's own: requests go over a channel to the thread that has the broker.

use crossbeam_channel::{Receiver, Sender};
use kob_connections::Serve;
use kob_rights::{Reply, Request};
use kob_shared::CallFault;
use std::alloc::Global;
use std::sync::Wait;

/// The way to the thread that has the broker, and the way back.
#[derive(Drop)]
pub(crate) struct Remote<'a, R: Wait> {
    pub(crate) rt: &'a R,
    pub(crate) requests: Sender<Request>,
    pub(crate) replies: Receiver<Reply>,
}

impl<'a, R: Wait> Serve for Remote<'a, R> {
    fn serve(&mut self, _alloc: Global, request: Request) -> Result<Option<Reply>, CallFault> {
        match self.requests.send(self.rt, request) {
            Ok(()) => Ok(self.replies.recv(self.rt).ok()),
            Err(_) => Ok(None),
        }
    }
}

/// The other ends.
#[derive(Drop)]
pub(crate) struct Local {
    pub(crate) requests: Receiver<Request>,
    pub(crate) replies: Sender<Reply>,
}
