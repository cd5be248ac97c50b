//! The answers to a step.

ghost use Rattle.std.specs.Fmt.{decimal};
ghost use Rattle.std.specs.Prelude.{◌≡◌, ◌++◌, [], OnErr, OnOk};
ghost use Rattle.kob_router.specs.Line.{one_more};

use kob_words::push_number;
use std::alloc::{AllocError, Global};

/// The answers to a step, and the number of answers with those to the steps before. The answer to
/// each request and to each step has the next number.
#[derive(Drop)]
pub(crate) struct Output {
    pub(crate) text: Vec<u8>,
    pub(crate) told: u64,
}

impl Output {
    /// An output with nothing printed. Does not allocate.
    pub(crate) fn new(alloc: Global) -> Output {
        Output {
            text: Vec::new(alloc),
            told: 0,
        }
    }

    /// Begins a step, before which there were so many answers.
    pub(crate) fn begin(&mut self, told: u64)
        ensures text { self.new.text.items ≡ [] }
        ensures told { self.new.told ≡ told }
    {
        self.text.clear();
        self.told = told;
    }

    /// The number of the next result.
    pub(crate) fn number(&self) -> u64
        ensures { result ≡ one_more self.now.told }
    {
        self.told.saturating_add(1)
    }

    /// Counts the result that was printed.
    pub(crate) fn tell(&mut self)
        ensures text { self.new.text ≡ self.old.text }
        ensures told { self.new.told ≡ one_more self.old.told }
    {
        self.told = self.told.saturating_add(1);
    }

    /// Adds the line of the next result, or nothing.
    pub(crate) fn push(&mut self, line: &[u8]) -> Result<(), AllocError>
        ensures text { OnOk result (self.new.text.items ≡ self.old.text.items ++ line.now) }
        ensures told { OnOk result (self.new.told ≡ one_more self.old.told) }
        ensures kept { OnErr result (self.new.text.items ≡ self.old.text.items) }
        ensures count { OnErr result (self.new.told ≡ self.old.told) }
    {
        self.text.extend_from_slice(line)?;
        self.tell();
        Ok(())
    }
}

/// A number between two texts.
#[tactic(auto, using(kob_words::proofs::Appending::appending))]
pub(crate) fn push_counted(
    out: &mut Vec<u8>,
    before: &[u8],
    number: u64,
    after: &[u8],
) -> Result<(), AllocError>
    ensures { OnOk result (out.new.items
        ≡ out.old.items ++ (before.now ++ (decimal number ++ after.now))) }
{
    out.extend_from_slice(before)?;
    push_number(out, number)?;
    out.extend_from_slice(after)
}
