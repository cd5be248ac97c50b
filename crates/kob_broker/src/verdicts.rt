//! The verdicts of one clause.

use kob_names::Verdict;

/// The verdicts of a clause's alternatives, in order.
#[derive(Clone, Copy)]
pub(crate) enum Verdicts {
    Only(Verdict),
    Either(Verdict, Verdict),
}
