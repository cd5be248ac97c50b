//! A policy, and what lines add to it.

ghost use Rattle.std.specs.Prelude.{◌≡◌, IfOk, OnOk, is_none};
ghost use Rattle.kob_policy_text.specs.Lines.{has_heading};
ghost use Rattle.kob_policy_text.specs.Policy.{at_file, empty_policy};
ghost use Rattle.kob_policy_text.specs.Policy.{with_draft, with_grant};
ghost use Rattle.kob_policy_text.specs.Policy.{with_item, with_omission, with_row};
ghost use Rattle.kob_script.specs.Words.{GivesSeen};

use crate::drafts::{binding_of, closing_binding, draft_under, has_bad_heading};
use crate::item::{Grant, Item, LeftOut, Target};
use crate::lines::is_heading_line;
use crate::origin::{Omission, Origin};
use crate::release::Release;
use crate::users::left_out_of;
use bstr::ByteSlice;
use kob_names::{Binding, Draft, Permission, PlainValue, Principal, Text};
use kob_script::{FaultKind, LineError};
use std::alloc::{AllocError, Global};
use std::marker::Model;

/// The bindings of some files in the order in which they are read, each beside its origin, the
/// super users, whether what no binding matches is open to everyone, and what was left out, whose
/// patterns are closed nevertheless.
#[derive(Drop)]
pub struct Policy {
    supers: Vec<Principal>,
    everyone: bool,
    release: Release,
    bindings: Vec<Binding>,
    origins: Vec<Origin>,
    closings: Vec<Binding>,
    omissions: Vec<Omission>,
    skipped: Vec<Origin>,
    has_list: bool,
    heading: Option<Option<Target>>,
}

impl Model for Policy {
    ghost use Rattle.kob_policy_text.specs.Policy as seen;

    ghost Value = { seen.Policy };

    ghost view = { λ policy. record {
      supers = policy.supers.items;
      everyone = policy.everyone;
      release = policy.release;
      bindings = policy.bindings.items;
      origins = policy.origins.items;
      closings = policy.closings.items;
      omissions = policy.omissions.items;
      skipped = policy.skipped.items;
      has_list = policy.has_list;
      heading = policy.heading;
    } };
}

impl Origin {
    fn copy(&self, alloc: Global) -> Result<Origin, AllocError>
        ensures { IfOk result (λ made. made ≡ self.now) }
    {
        let file = self.file.copy(alloc)?;
        Ok(Origin {
            file,
            line: self.line,
        })
    }
}

impl Policy {
    /// A policy of no files. Does not allocate.
    pub fn new(alloc: Global) -> Policy
        ensures { result ≡ empty_policy }
    {
        Policy {
            supers: Vec::new(alloc),
            everyone: false,
            release: Release::Since28,
            bindings: Vec::new(alloc),
            origins: Vec::new(alloc),
            closings: Vec::new(alloc),
            omissions: Vec::new(alloc),
            skipped: Vec::new(alloc),
            has_list: false,
            heading: None,
        }
    }

    /// The super users, in the order in which they are read.
    pub fn supers(&self) -> &[Principal]
        ensures { result.now ≡ self.now.supers }
    {
        self.supers.as_slice()
    }

    /// Whether what no binding matches is open to everyone.
    pub fn everyone(&self) -> bool
        ensures { result ≡ self.now.everyone }
    {
        self.everyone
    }

    /// The release of the brokers, that of the last `kafka VERSION`.
    pub fn release(&self) -> Release
        ensures { result ≡ self.now.release }
    {
        self.release
    }

    /// The bindings, in the order in which they are read.
    pub fn bindings(&self) -> &[Binding]
        ensures { result.now ≡ self.now.bindings }
    {
        self.bindings.as_slice()
    }

    /// From where each binding comes.
    pub fn origins(&self) -> &[Origin]
        ensures { result.now ≡ self.now.origins }
    {
        self.origins.as_slice()
    }

    /// Bindings that cover nobody, on the patterns of bindings that were left out.
    pub fn closings(&self) -> &[Binding]
        ensures { result.now ≡ self.now.closings }
    {
        self.closings.as_slice()
    }

    /// What was left out, in the order in which it is read.
    pub fn omissions(&self) -> &[Omission]
        ensures { result.now ≡ self.now.omissions }
    {
        self.omissions.as_slice()
    }

    /// The lines that say nothing of rules: other settings of a broker, and what is printed above a
    /// list.
    pub fn skipped(&self) -> &[Origin]
        ensures { result.now ≡ self.now.skipped }
    {
        self.skipped.as_slice()
    }

    /// Whether no heading of the file was read yet.
    pub(crate) fn is_above(&self) -> bool
        ensures { result ≡ is_none self.now.heading }
    {
        self.heading.is_none()
    }

    /// Whether the file has a heading.
    pub(crate) fn has_list(&self) -> bool
        ensures { result ≡ self.now.has_list }
    {
        self.has_list
    }

    fn add_omission(
        &mut self,
        alloc: Global,
        origin: &Origin,
        what: LeftOut,
        denies: bool,
    ) -> Result<(), AllocError>
        ensures { OnOk result (self.new ≡ with_omission self.old origin.now what denies) }
    {
        let origin = origin.copy(alloc)?;
        let omission = Omission {
            origin,
            what,
            denies,
        };
        self.omissions.push(omission)?;
        Ok(())
    }

    /// What is left out closes its pattern, if its kind of resource is supported.
    fn add_draft(&mut self, alloc: Global, origin: &Origin, draft: &Draft) -> Result<(), LineError>
        ensures { GivesSeen (λ _. self.new) result (with_draft self.old origin.now draft.now) }
    {
        match left_out_of(draft) {
            Some(what) => {
                let closing = closing_binding(alloc, draft)?;
                self.add_omission(alloc, origin, what, draft.permission == Permission::Deny)?;
                match what {
                    LeftOut::Resource => {}
                    LeftOut::Principal | LeftOut::Operation => self.closings.push(closing)?,
                }
            }
            None => {
                self.bindings.push(binding_of(alloc, draft)?)?;
                self.origins.push(origin.copy(alloc)?)?;
            }
        }
        Ok(())
    }

    fn add_grant(&mut self, alloc: Global, origin: &Origin, grant: Grant) -> Result<(), LineError>
        ensures { GivesSeen (λ _. self.new) result
            (with_grant self.old origin.now self.old.heading grant) }
    {
        match &self.heading {
            None => Err(LineError::Fault(FaultKind::NoResource)),
            Some(None) => {
                let denies = grant.permission == Permission::Deny;
                Ok(self.add_omission(alloc, origin, LeftOut::Resource, denies)?)
            }
            Some(Some(target)) => {
                let draft = draft_under(alloc, target, grant)?;
                self.add_draft(alloc, origin, &draft)
            }
        }
    }

    fn add_row(
        &mut self,
        alloc: Global,
        origin: &Origin,
        target: &Option<Target>,
        grant: Grant,
    ) -> Result<(), LineError>
        ensures { GivesSeen (λ _. self.new) result
            (with_row self.old origin.now target.now grant) }
    {
        match target {
            None => {
                let denies = grant.permission == Permission::Deny;
                Ok(self.add_omission(alloc, origin, LeftOut::Resource, denies)?)
            }
            Some(target) => {
                let draft = draft_under(alloc, target, grant)?;
                self.add_draft(alloc, origin, &draft)
            }
        }
    }

    #[tactic(auto, unfolding(crate::specs::Policy::with_item))]
    pub(crate) fn add_item(
        &mut self,
        alloc: Global,
        origin: &Origin,
        item: Item,
    ) -> Result<(), LineError>
        ensures { GivesSeen (λ _. self.new) result (with_item self.old origin.now item) }
    {
        match item {
            Item::Super(user) => {
                self.supers.push(user)?;
                Ok(())
            }
            Item::Everyone(everyone) => {
                self.everyone = everyone;
                Ok(())
            }
            Item::Brokers(release) => {
                self.release = release;
                Ok(())
            }
            Item::Rule(draft) => { self.add_draft(alloc, origin, &draft) }
            Item::Resource(target) => {
                if has_bad_heading(&target) {
                    return Err(LineError::Fault(FaultKind::BadName));
                }
                self.heading = Some(target);
                Ok(())
            }
            Item::Grant(grant) => self.add_grant(alloc, origin, grant),
            Item::Row(target, grant) => self.add_row(alloc, origin, &target, grant),
            Item::Skipped => {
                self.skipped.push(origin.copy(alloc)?)?;
                Ok(())
            }
            Item::LeftOut(what) => Ok(self.add_omission(alloc, origin, what, false)?),
        }
    }

    /// No heading is above the first line of a file.
    pub(crate) fn begin_file(&mut self, text: &[u8])
        ensures { self.new ≡ at_file text.now self.old }
    {
        self.has_list = has_heading(text);
        self.heading = None;
    }
}

/// Whether some line is a heading.
fn has_heading(text: &[u8]) -> bool
    ensures { result ≡ has_heading text.now }
{
    for line in text.lines() {
        if is_heading_line(line) {
            return true;
        }
    }
    false
}
