//! The end of a service and of a consumer whose line knows its worker.

ghost use Rattle.std.specs.Prelude.{◌≡◌, ◌++◌, [], IfErr, IfOk, IsErrOf, OnErr, OnOk};

use crate::consumer_end::ConsumerEnd;
use crate::running_consumer::RunningConsumer;
use crate::running_service::RunningService;
use crate::service_end::ServiceEnd;
use kob_connections::{AsWorker, IntoCalls, ProgramFault};
use kob_router::Call;
use std::alloc::AllocError;

impl<L: IntoCalls + AsWorker> RunningService<L> {
    /// Ends the line, whose calls are those of its worker. The service changed no line. Does not
    /// allocate.
    pub fn finish(self) -> ServiceEnd
        requires { self.earlier ≡ [] }
        ensures worker { result.worker ≡ L.worker self.line }
        ensures calls { result.calls ≡ L.calls self.line }
        ensures relayed { result.relayed ≡ self.relayed }
    {
        let sender = self.line().worker();
        self.close(sender)
    }

    /// Ends the line. The calls of its worker are those of the lines that were handed out, in turn,
    /// and then those of this line. The error is out of memory.
    pub fn finish_after(self, earlier: Vec<Call>) -> Result<ServiceEnd, AllocError>
        requires { earlier.items ≡ self.earlier }
        ensures worker { IfOk result (λ e. e.worker ≡ L.worker self.line) }
        ensures calls { IfOk result (λ e. e.calls ≡ earlier.items ++ L.calls self.line) }
        ensures relayed { IfOk result (λ e. e.relayed ≡ self.relayed) }
    {
        let sender = self.line().worker();
        self.close_after(sender, earlier)
    }
}

impl<L: IntoCalls + AsWorker> RunningConsumer<L> {
    /// Ends the line, whose calls are those of its worker. The consumer changed no line. Does not
    /// allocate.
    pub fn finish(self) -> ConsumerEnd
        requires { self.earlier ≡ [] }
        ensures worker { result.worker ≡ L.worker self.line }
        ensures calls { result.calls ≡ L.calls self.line }
        ensures fetcher { result.fetcher ≡ self.fetcher }
        ensures inbox { result.inbox ≡ self.inbox }
    {
        let taker = self.line().worker();
        self.close(taker)
    }

    /// Ends the line. The calls of its worker are those of the lines that were handed out, in turn,
    /// and then those of this line. The error is out of memory.
    pub fn finish_after(self, earlier: Vec<Call>) -> Result<ConsumerEnd, AllocError>
        requires { earlier.items ≡ self.earlier }
        ensures worker { IfOk result (λ e. e.worker ≡ L.worker self.line) }
        ensures calls { IfOk result (λ e. e.calls ≡ earlier.items ++ L.calls self.line) }
        ensures fetcher { IfOk result (λ e. e.fetcher ≡ self.fetcher) }
        ensures inbox { IfOk result (λ e. e.inbox ≡ self.inbox) }
    {
        let taker = self.line().worker();
        self.close_after(taker, earlier)
    }
}

impl<L: IntoCalls + AsWorker + Drop> RunningService<L> {
    /// Ends the line, whose calls are those of its worker, if the work before went well. Otherwise
    /// the fault is that of the work. The service changed no line.
    pub fn finish_with(self, done: Result<(), ProgramFault>) -> Result<ServiceEnd, ProgramFault>
        requires { self.earlier ≡ [] }
        ensures left { IfOk result (λ e. (e.worker ≡ L.worker self.line)
            × (e.calls ≡ L.calls self.line)
            × (e.relayed ≡ self.relayed)) }
        ensures ok { OnOk done (OnErr result ⊥) }
        ensures fault { IfErr done (λ fault. IsErrOf result fault) }
    {
        let sender = self.line().worker();
        self.end(sender, done)
    }
}

impl<L: IntoCalls + AsWorker + Drop> RunningConsumer<L> {
    /// Ends the line, whose calls are those of its worker, if the work before went well. Otherwise
    /// the fault is that of the work. The consumer changed no line.
    pub fn finish_with(self, done: Result<(), ProgramFault>) -> Result<ConsumerEnd, ProgramFault>
        requires { self.earlier ≡ [] }
        ensures left { IfOk result (λ e. (e.worker ≡ L.worker self.line)
            × (e.calls ≡ L.calls self.line)
            × (e.fetcher ≡ self.fetcher)
            × (e.inbox ≡ self.inbox)) }
        ensures ok { OnOk done (OnErr result ⊥) }
        ensures fault { IfErr done (λ fault. IsErrOf result fault) }
    {
        let taker = self.line().worker();
        self.end(taker, done)
    }
}
