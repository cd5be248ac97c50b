//! Tests of outboxes and inboxes, of routes and lines, of sessions, fleets and pipelines in
//! threads, of journals that are handed out, of routers and consumers that run out of memory, and
//! of calls that do not allocate. The results of steps over a broker are shown by the scenes of
//! `kob play`.
//!
//! A step that fails ends its test by `expect` or `assert!`, which name the line. Functions seldom
//! return early: at a `?` the proof considers each part of each value that is dropped there.
#![tactic(auto)]

#[cfg(test)]
mod copies;
#[cfg(test)]
mod elsewhere;
#[cfg(test)]
mod fixtures;
#[cfg(test)]
mod fleets;
#[cfg(test)]
mod gates;
#[cfg(test)]
mod histories;
#[cfg(test)]
mod inbox;
#[cfg(test)]
mod lines;
#[cfg(test)]
mod no_allocation;
#[cfg(test)]
mod no_allocation_sessions;
#[cfg(test)]
mod outbox;
#[cfg(test)]
mod pairings;
#[cfg(test)]
mod pipeline_end;
#[cfg(test)]
mod pipelines;
#[cfg(test)]
mod plans;
#[cfg(test)]
mod refused;
#[cfg(test)]
mod refused_sessions;
#[cfg(test)]
mod relays;
#[cfg(test)]
mod remote;
#[cfg(test)]
mod replays;
#[cfg(test)]
mod revoked;
#[cfg(test)]
mod routes;
#[cfg(test)]
mod rules;
#[cfg(test)]
mod sessions;
#[cfg(test)]
mod sharing;
#[cfg(test)]
mod turns;
