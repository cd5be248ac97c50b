//! The super users, and a tree of their texts, in which one is looked up.

ghost use Rattle.std.specs.Prelude.{◌≡◌, ◌==◌, not, IfOk, length};
ghost use Rattle.kob_prefix_tree.specs.Held.{serials_of, held};
ghost use Rattle.kob_authorizer.specs.Decide.{is_super};
ghost use Rattle.kob_authorizer.specs.SuperUsers.{holds_text, texts_of};

use kob_names::Principal;
use kob_prefix_tree::{PatternKind, PrefixTree};
use std::alloc::{AllocError, Global};
use std::marker::Model;

/// The super users in the order in which they were given. Contracts see the list.
///
/// They are looked up in the list until the tree of their texts is made. From then on the cost
/// depends on the length of the text, and not on their number.
#[derive(Drop)]
pub struct SuperUsers {
    listed: Vec<Principal>,
    texts: Option<PrefixTree>,
}

impl Model for SuperUsers {
    ghost use Rattle.std.specs.Prelude.{◌≡◌, IfSome, List, ℕ};
    ghost use Rattle.kob_authorizer.specs.SuperUsers.{texts_of};

    ghost Value = { List (List ℕ) };

    ghost view = { λ users. users.listed.items };

    ghost invariant = { λ users.
        IfSome users.texts (λ texts. texts ≡ texts_of users.listed.items) };
}

impl SuperUsers {
    /// These super users, without a tree. Does not allocate.
    pub fn new(listed: Vec<Principal>) -> SuperUsers
        ensures { result ≡ listed.items }
    {
        SuperUsers {
            listed,
            texts: None,
        }
    }

    /// Makes the tree, if it is not there yet. The error is out of memory.
    pub fn index(&mut self, alloc: Global) -> Result<(), AllocError>
        ensures { self.new ≡ self.old }
    {
        if self.texts.is_some() {
            return Ok(());
        }
        let texts = texts_of(alloc, self.listed.as_slice())?;
        self.texts = Some(texts);
        Ok(())
    }

    /// The super users. Does not allocate.
    pub fn as_slice(&self) -> &[Principal]
        ensures { result.now ≡ self.now }
    {
        self.listed.as_slice()
    }

    /// Whether the principal is equal to a super user. Does not allocate.
    #[tactic(auto, using(crate::proofs::SuperUsers::listed_texts))]
    pub fn contains(&self, who: &Principal) -> bool
        ensures { result ≡ is_super self.now who.now }
    {
        match &self.texts {
            Some(texts) => holds_text(texts, who),
            None => is_listed(self.listed.as_slice(), who),
        }
    }
}

/// Whether the principal is equal to one of these users.
fn is_listed(users: &[Principal], who: &Principal) -> bool
    ensures { result ≡ is_super users.now who.now }
{
    users.iter().any(|user| who == user)
}

/// A tree of the texts of these users. The error is out of memory.
#[tactic(auto, using(std::proofs::lemmas::List::Sums::fold_more))]
fn texts_of(alloc: Global, users: &[Principal]) -> Result<PrefixTree, AllocError>
    ensures { IfOk result (λ texts. texts ≡ texts_of users.now) }
{
    let mut texts = PrefixTree::new();
    for user in users {
        texts.add(alloc, user.as_str().as_bytes(), PatternKind::Literal, 0)?;
    }
    Ok(texts)
}

/// Whether the tree holds the text of the principal.
fn holds_text(texts: &PrefixTree, who: &Principal) -> bool
    ensures { result ≡ holds_text texts.now who.now }
{
    texts.literal(who.as_str().as_bytes()).next().is_some()
}
