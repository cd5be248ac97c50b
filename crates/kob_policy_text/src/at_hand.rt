//! What bindings name, each once.

ghost use Rattle.std.specs.Prelude.{◌≡◌, [], IfOk, OnOk};
ghost use Rattle.kob_policy_text.specs.AtHand.{each_once, hosts_named};
ghost use Rattle.kob_policy_text.specs.AtHand.{names_named, principals_at_hand, principals_named};
ghost use Rattle.kob_policy_text.specs.AtHand.{topics_named, with_text};

use crate::texts::Texts;
use kob_names::{Binding, PatternKind, PlainValue, Principal, PrincipalFault, ResourceKind};
use std::alloc::{AllocError, Global};
use std::marker::Model;

/// Principals, each once, in the order in which they came, and their texts. Contracts see their
/// list.
#[derive(Drop)]
struct Users {
    made: Vec<Principal>,
    texts: Texts,
}

impl Model for Users {
    ghost use Rattle.std.specs.Prelude.{◌≡◌, List, ℕ};

    ghost Value = { List (List ℕ) };

    ghost view = { λ users. users.made.items };

    ghost invariant = { λ users. users.texts ≡ users.made.items };
}

impl Users {
    fn new(alloc: Global) -> Users
        ensures { result ≡ [] }
    {
        Users {
            made: Vec::new(alloc),
            texts: Texts::new(alloc),
        }
    }

    /// Puts the principal last, unless it is there.
    fn add(&mut self, alloc: Global, principal: &Principal) -> Result<(), AllocError>
        ensures { OnOk result (self.new ≡ with_text self.old principal.now) }
    {
        if self.texts.knows(principal.as_str()) {
            return Ok(());
        }
        let copy = principal.copy(alloc)?;
        self.made.reserve(1)?;
        self.texts.add(alloc, principal.as_str())?;
        self.made.push_reserved(copy);
        Ok(())
    }

    fn into_vec(self) -> Vec<Principal>
        ensures { result.items ≡ self }
    {
        self.made
    }
}

/// The users in the order in which they first stand there.
#[tactic(auto, using(std::proofs::lemmas::List::Sums::fold_more))]
pub fn each_once(alloc: Global, users: &[Principal]) -> Result<Vec<Principal>, AllocError>
    ensures { IfOk result (λ made. made.items ≡ each_once users.now) }
{
    let mut made = Users::new(alloc);
    for user in users {
        made.add(alloc, user)?;
    }
    Ok(made.into_vec())
}

/// `User:*`, which asks as all others do, and the principals that bindings name, in the order in
/// which they are first named.
#[tactic(auto, using(std::proofs::lemmas::List::Sums::fold_more))]
pub fn principals_at_hand(alloc: Global, bindings: &[Binding]) -> Result<Vec<Principal>, AllocError>
    ensures { IfOk result (λ made. made.items ≡ principals_at_hand bindings.now) }
{
    let others = match Principal::parse(alloc, "User:*") {
        Ok(others) => others,
        Err(PrincipalFault::Memory(refused)) => return Err(refused),
        Err(_) => unreachable!(),
    };
    let mut made = Users::new(alloc);
    made.add(alloc, &others)?;
    for binding in bindings {
        made.add(alloc, &binding.parts().principal)?;
    }
    Ok(made.into_vec())
}

/// The principals that bindings name.
#[tactic(auto, using(std::proofs::lemmas::List::Sums::fold_more))]
pub fn principals_named(alloc: Global, bindings: &[Binding]) -> Result<Texts, AllocError>
    ensures { IfOk result (λ made. made ≡ principals_named bindings.now) }
{
    let mut made = Texts::new(alloc);
    for binding in bindings {
        made.add(alloc, binding.parts().principal.as_str())?;
    }
    Ok(made)
}

/// The hosts that bindings name.
#[tactic(auto, using(std::proofs::lemmas::List::Sums::fold_more))]
pub fn hosts_named(alloc: Global, bindings: &[Binding]) -> Result<Texts, AllocError>
    ensures { IfOk result (λ made. made ≡ hosts_named bindings.now) }
{
    let mut made = Texts::new(alloc);
    for binding in bindings {
        made.add(alloc, binding.parts().host.as_str())?;
    }
    Ok(made)
}

/// The names of patterns on a kind of resource.
#[tactic(auto, using(std::proofs::lemmas::List::Sums::fold_more))]
pub fn names_named(
    alloc: Global,
    resource: ResourceKind,
    bindings: &[Binding],
) -> Result<Texts, AllocError>
    ensures { IfOk result (λ made. made ≡ names_named resource bindings.now) }
{
    let mut made = Texts::new(alloc);
    for binding in bindings {
        let parts = binding.parts();
        if parts.resource == resource {
            made.add(alloc, parts.pattern.name.as_str())?;
        }
    }
    Ok(made)
}

/// The topics that literal patterns name.
#[tactic(auto, using(std::proofs::lemmas::List::Sums::fold_more))]
pub fn topics_named(alloc: Global, bindings: &[Binding]) -> Result<Texts, AllocError>
    ensures { IfOk result (λ made. made ≡ topics_named bindings.now) }
{
    let mut made = Texts::new(alloc);
    for binding in bindings {
        let parts = binding.parts();
        if parts.resource == ResourceKind::Topic
            && parts.pattern.kind == PatternKind::Literal
            && parts.pattern.name.as_str() != "*"
        {
            made.add(alloc, parts.pattern.name.as_str())?;
        }
    }
    Ok(made)
}
