//! The reader of a line of a scene.

ghost use Rattle.std.specs.Prelude.{◌≡◌, ◌++◌, map, IfOk, OnOk};
ghost use Rattle.kob_scene_text.specs.Steps.{head_of};
ghost use Rattle.kob_scene_text.specs.Scenes.{ReadsLine, ReadsNext};
ghost use Rattle.kob_scene_text.specs.Scenes.{asked};
ghost use Rattle.kob_scene_text.specs.Scenes.{next_worker, so_far, told};
ghost use Rattle.kob_scene_text.specs.Reading.{Gives};
ghost use Rattle.kob_scene_text.specs.Scenes.{pair_named, pair_of, with_consumer};
ghost use Rattle.kob_scene_text.specs.Scenes.{with_expect, with_law};
ghost use Rattle.kob_scene_text.specs.Scenes.{with_service, with_setting};
ghost use Rattle.kob_scene_text.specs.Scenes.{with_step, with_steps, with_words};
ghost use Rattle.std.specs.Prelude.{Ok, [], ◌∷◌};

use crate::consumer_lines::consumer_of;
use crate::fault::{BAD_LINE, SceneFaultKind, StepError};
use crate::name::{Worker, consumer_named, new_name, service_named, worker_named};
use crate::reading::Reading;
use crate::scene::{Consumer, Sending, Service, Step};
use crate::service_lines::service_of;
use crate::step_lines::{consumer_step, expected_of, service_step};
use crate::step_names::step_named;
use crate::variants::has_variant;
use kob_acl_cli::CliArgs;
use kob_names::sum_of;
use kob_rights::Event;
use kob_script::{
    FaultKind, Word, answer_to, events_of, everyone_of, is_setting, is_super, super_of, words_of,
};
use std::alloc::{AllocError, Global};
use std::collections::VecDeque;

/// What a line begins with.
#[derive(Clone, Copy)]
pub(crate) enum Head {
    Setting,
    Service,
    Consumer,
    Journal,
    Law,
    Check,
    Expect,
    Of(Worker),
    Unknown,
    Request,
}

/// Reads one more line.
pub(crate) fn read_line(alloc: Global, reading: &mut Reading, line: &[u8]) -> Result<(), StepError>
    ensures { ReadsLine (so_far reading.old) line.now reading.new result }
{
    let words = words_of(alloc, line)?;
    let answer = answer_to(alloc, &words)?;
    let added = reading.add(alloc, &words, &answer);
    drop(answer);
    added
}

/// What a line begins with. A first word that is no keyword is a principal if it has a colon, and
/// else the name of a worker. Where no worker has the name, the line asks for a step of an unknown
/// one if it has the word of a step.
pub(crate) fn head_of(worker: Option<Worker>, first: &Word<'_>, rest: &[Word<'_>]) -> Head
    ensures { result ≡ head_of worker first.now rest.now }
{
    let name = first.decoded();
    if is_setting(first) {
        Head::Setting
    } else if name == b"service".as_slice() {
        Head::Service
    } else if name == b"consumer".as_slice() {
        Head::Consumer
    } else if name == b"journal".as_slice() {
        Head::Journal
    } else if name == b"law".as_slice() {
        Head::Law
    } else if name == b"check".as_slice() {
        Head::Check
    } else if name == b"expect".as_slice() {
        Head::Expect
    } else if name.contains(&b':') {
        Head::Request
    } else {
        match (worker, rest) {
            (Some(worker), _) => Head::Of(worker),
            (None, [second, ..]) if step_named(second.decoded()).is_some() => Head::Unknown,
            (None, _) => Head::Request,
        }
    }
}

/// Adds the steps that ask for these events, in order.
fn push_asked(steps: &mut Vec<Step>, mut events: VecDeque<Event>) -> Result<(), AllocError>
    ensures { OnOk result (map told steps.new.items
        ≡ map told steps.old.items ++ map asked events.items) }
{
    while let Some(event) = events.pop_front() {
        steps.push(Step::Request(event))?;
    }
    Ok(())
}

impl Reading {
    #[tactic(auto, unfolding(crate::specs::Scenes::with_words))]
    fn add(
        &mut self,
        alloc: Global,
        words: &[Word<'_>],
        answer: &Option<CliArgs>,
    ) -> Result<(), StepError>
        ensures { ReadsNext self.new result (with_words answer.now (so_far self.old) words.now) }
    {
        let [first, rest @ ..] = words else {
            return Ok(());
        };
        let worker = worker_named(&self.services, &self.consumers, first.decoded());
        match head_of(worker, first, rest) {
            Head::Setting => self.add_setting(alloc, first, rest),
            Head::Service => self.add_service(alloc, rest),
            Head::Consumer => self.add_consumer(alloc, rest),
            Head::Journal => match rest {
                [] => self.push_step(Step::Journal),
                _ => Err(StepError::Fault(BAD_LINE)),
            },
            Head::Law => self.add_law(rest),
            Head::Check => {
                let (service, consumer) = self.pair_of(rest)?;
                self.push_step(Step::Check { service, consumer })
            }
            Head::Expect => self.add_expect(rest),
            Head::Of(worker) => self.add_step(alloc, worker, rest),
            Head::Unknown => Err(StepError::Fault(SceneFaultKind::UnknownWorker)),
            Head::Request => {
                let asked = events_of(alloc, words, answer)?;
                push_asked(&mut self.steps, asked)?;
                Ok(())
            }
        }
    }

    /// A setting comes before every request, declaration and step.
    fn add_setting(
        &mut self,
        alloc: Global,
        first: &Word<'_>,
        arguments: &[Word<'_>],
    ) -> Result<(), StepError>
        ensures { ReadsNext self.new result
            (with_setting (so_far self.old) first.now arguments.now) }
    {
        if !self.steps.is_empty() || !self.services.is_empty() || !self.consumers.is_empty() {
            return Err(StepError::Fault(SceneFaultKind::Script(FaultKind::LateSetting)));
        }
        if is_super(first) {
            let principal = super_of(alloc, arguments)?;
            self.supers.push(principal)?;
        } else {
            self.everyone = everyone_of(arguments)?;
        }
        Ok(())
    }

    /// The number of the worker that is declared next.
    fn next_worker(&self) -> Result<usize, AllocError>
        ensures { IfOk result (λ number. number ≡ next_worker (so_far self.now)) }
    {
        sum_of(sum_of(self.services.len(), self.consumers.len())?, 1)
    }

    fn add_service(&mut self, alloc: Global, words: &[Word<'_>]) -> Result<(), StepError>
        ensures { ReadsNext self.new result (with_service (so_far self.old) words.now) }
    {
        let [name, rest @ ..] = words else {
            return Err(StepError::Fault(BAD_LINE));
        };
        let worker = self.next_worker()?;
        let name = new_name(alloc, &self.services, &self.consumers, name)?;
        let declared = service_of(alloc, rest)?;
        self.services.push(Service {
            name,
            worker,
            principal: declared.who.principal,
            host: declared.who.host,
            settings: declared.settings,
            routed: declared.routed,
            sending: declared.sending,
        })?;
        Ok(())
    }

    fn add_consumer(&mut self, alloc: Global, words: &[Word<'_>]) -> Result<(), StepError>
        ensures { ReadsNext self.new result (with_consumer (so_far self.old) words.now) }
    {
        let [name, rest @ ..] = words else {
            return Err(StepError::Fault(BAD_LINE));
        };
        let worker = self.next_worker()?;
        let name = new_name(alloc, &self.services, &self.consumers, name)?;
        let declared = consumer_of(alloc, rest)?;
        self.consumers.push(Consumer {
            name,
            worker,
            principal: declared.who.principal,
            host: declared.who.host,
            subscription: declared.subscription,
            start: declared.start,
            taking: declared.taking,
        })?;
        Ok(())
    }

    fn push_step(&mut self, step: Step) -> Result<(), StepError>
        ensures { ReadsNext self.new result (Ok (with_steps (so_far self.old) (told step ∷ []))) }
    {
        self.steps.push(step)?;
        Ok(())
    }

    /// `law SERVICE CONSUMER`, of which none is a variant
    fn add_law(&mut self, words: &[Word<'_>]) -> Result<(), StepError>
        ensures { ReadsNext self.new result (with_law (so_far self.old) words.now) }
    {
        let (service, consumer) = self.pair_of(words)?;
        if has_variant(&self.services, service, &self.consumers, consumer) {
            return Err(StepError::Fault(SceneFaultKind::NoLaw));
        }
        self.push_step(Step::Law { service, consumer })
    }

    /// `expect SERVICE CONSUMER` and what is expected
    fn add_expect(&mut self, words: &[Word<'_>]) -> Result<(), StepError>
        ensures { ReadsNext self.new result (with_expect (so_far self.old) words.now) }
    {
        let [service, consumer, rest @ ..] = words else {
            return Err(StepError::Fault(BAD_LINE));
        };
        let (service, consumer) = self.pair_named(service, consumer)?;
        let what = expected_of(rest)?;
        self.push_step(Step::Expect {
            service,
            consumer,
            what,
        })
    }

    /// The places of a service and of a consumer, by their names.
    fn pair_of(&self, words: &[Word<'_>]) -> Result<(usize, usize), StepError>
        ensures { Gives result (pair_of (so_far self.now) words.now) }
    {
        match words {
            [service, consumer] => self.pair_named(service, consumer),
            _ => Err(StepError::Fault(BAD_LINE)),
        }
    }

    fn pair_named(
        &self,
        service: &Word<'_>,
        consumer: &Word<'_>,
    ) -> Result<(usize, usize), StepError>
        ensures { Gives result (pair_named (so_far self.now) service.now consumer.now) }
    {
        let service = service_named(&self.services, service.decoded());
        let consumer = consumer_named(&self.consumers, consumer.decoded());
        match (service, consumer) {
            (Some(service), Some(consumer)) => Ok((service, consumer)),
            _ => Err(StepError::Fault(SceneFaultKind::UnknownWorker)),
        }
    }

    fn add_step(
        &mut self,
        alloc: Global,
        worker: Worker,
        words: &[Word<'_>],
    ) -> Result<(), StepError>
        ensures { ReadsNext self.new result (with_step (so_far self.old) worker words.now) }
    {
        match worker {
            Worker::Service(place) => {
                let sending = self
                    .services
                    .get(place)
                    .map_or(Sending::Proved, |service| service.sending);
                let step = service_step(alloc, sending, words)?;
                self.push_step(Step::Service(place, step))
            }
            Worker::Consumer(place) => {
                let step = consumer_step(words)?;
                self.push_step(Step::Consumer(place, step))
            }
        }
    }
}
