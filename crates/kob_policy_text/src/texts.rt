//! Texts, each once.

ghost use Rattle.std.specs.Prelude.{◌≡◌, [], OnErr, OnOk, length};
ghost use Rattle.kob_policy_text.specs.AtHand.{is_known, with_text};

use kob_names::Text;
use kob_policy_review::is_held;
use kob_prefix_tree::{PatternKind, PrefixTree};
use std::alloc::{AllocError, Global};
use std::marker::Model;

/// Texts in the order in which they came, and a tree that has each of them as a key. Contracts see
/// their list.
#[derive(Drop)]
pub struct Texts {
    made: Vec<Text>,
    keys: PrefixTree,
}

impl Model for Texts {
    ghost use Rattle.std.specs.Prelude.{◌≡◌, List, ℕ};
    ghost use Rattle.kob_policy_review.specs.Finding.{is_held};
    ghost use Rattle.kob_policy_text.specs.AtHand.{is_known};

    ghost Value = { List (List ℕ) };

    ghost view = { λ texts. texts.made.items };

    ghost invariant = { λ texts. (text : List ℕ)
        → is_known texts.made.items text ≡ is_held texts.keys text };
}

impl Texts {
    /// None. Does not allocate.
    #[tactic(auto, using(crate::proofs::Knowing::none_held))]
    pub fn new(alloc: Global) -> Texts
        ensures { result ≡ [] }
    {
        Texts {
            made: Vec::new(alloc),
            keys: PrefixTree::new(),
        }
    }

    /// Whether the text is one of them.
    pub fn knows(&self, text: &str) -> bool
        ensures { result ≡ is_known self.now text.now }
    {
        is_held(&self.keys, text)
    }

    /// Puts the text last, unless it is there.
    pub fn add(&mut self, alloc: Global, text: &str) -> Result<(), AllocError>
        ensures put { OnOk result (self.new ≡ with_text self.old text.now) }
        ensures kept { OnErr result (self.new ≡ self.old) }
    {
        if self.knows(text) {
            return Ok(());
        }
        let copy = Text::copied(alloc, text)?;
        self.made.reserve(1)?;
        self.keys
            .add(alloc, text.as_bytes(), PatternKind::Literal, 0)?;
        self.made.push_reserved(copy);
        Ok(())
    }

    /// The number of texts.
    pub fn len(&self) -> usize
        ensures { result ≡ length self.now }
    {
        self.made.len()
    }

    /// The texts. Does not allocate.
    pub fn into_vec(self) -> Vec<Text>
        ensures { result.items ≡ self }
    {
        self.made
    }
}
