//! Parties, each once.

ghost use Rattle.std.specs.Prelude.{◌≡◌, ◌∷◌, [], IfOk, None, OnOk, fold};
ghost use Rattle.kob_policy_review.specs.Classes.{principals_named, with_party, with_principal};
ghost use Rattle.kob_policy_review.specs.Finding.{is_held};

use kob_names::{Binding, Text};
use kob_prefix_tree::{PatternKind, PrefixTree};
use std::alloc::{AllocError, Global};
use std::marker::Model;

/// Parties in the order in which they came, and a tree that has the text of each as a key.
/// Contracts see their list.
#[derive(Drop)]
struct Parties {
    made: Vec<Option<Text>>,
    keys: PrefixTree,
}

impl Model for Parties {
    ghost use Rattle.std.specs.Prelude.{◌≡◌, List, Option, ℕ};
    ghost use Rattle.std.specs.List.{list_any};
    ghost use Rattle.kob_policy_review.specs.Classes.{is_party};
    ghost use Rattle.kob_policy_review.specs.Finding.{is_held};

    ghost Value = { List (Option (List ℕ)) };

    ghost view = { λ parties. parties.made.items };

    ghost invariant = { λ parties. (text : List ℕ)
        → list_any (is_party text) parties.made.items ≡ is_held parties.keys text };
}

impl Parties {
    /// All others alone.
    #[tactic(auto, using(crate::proofs::Keys::none_held))]
    fn others(alloc: Global) -> Result<Parties, AllocError>
        ensures { IfOk result (λ made. made ≡ None ∷ []) }
    {
        let mut made = Vec::new(alloc);
        made.push(None)?;
        let keys = PrefixTree::new();
        Ok(Parties { made, keys })
    }

    /// Puts the party last, unless it is there.
    fn add(&mut self, alloc: Global, text: &str) -> Result<(), AllocError>
        ensures { OnOk result (self.new ≡ with_party self.old text.now) }
    {
        if is_held(&self.keys, text) {
            return Ok(());
        }
        let copy = Text::copied(alloc, text)?;
        self.made.reserve(1)?;
        self.keys
            .add(alloc, text.as_bytes(), PatternKind::Literal, 0)?;
        self.made.push_reserved(Some(copy));
        Ok(())
    }

    #[tactic(auto, unfolding(crate::specs::Classes::with_principal))]
    fn add_principal(&mut self, alloc: Global, entry: &(u64, Binding)) -> Result<(), AllocError>
        ensures { OnOk result (self.new ≡ with_principal self.old entry.now) }
    {
        self.add(alloc, entry.1.parts().principal.as_str())
    }

    /// Adds the principals that the bindings name.
    #[tactic(auto, using(std::proofs::lemmas::List::Sums::fold_more))]
    fn add_principals(
        &mut self,
        alloc: Global,
        entries: &[(u64, Binding)],
    ) -> Result<(), AllocError>
        ensures { OnOk result (self.new ≡ fold with_principal self.old entries.now) }
    {
        for entry in entries {
            self.add_principal(alloc, entry)?;
        }
        Ok(())
    }

    fn into_vec(self) -> Vec<Option<Text>>
        ensures { result.items ≡ self }
    {
        self.made
    }
}

/// Whether the tree has this key.
pub fn is_held(keys: &PrefixTree, text: &str) -> bool
    ensures { result ≡ is_held keys.now text.now }
{
    keys.literal(text.as_bytes()).next().is_some()
}

/// The principals that some bindings name and then others, each once, after all others.
pub fn principals_of_both(
    alloc: Global,
    some: &[(u64, Binding)],
    others: &[(u64, Binding)],
) -> Result<Vec<Option<Text>>, AllocError>
    ensures { IfOk result (λ made.
        made.items ≡ fold with_principal (principals_named some.now) others.now) }
{
    let mut made = Parties::others(alloc)?;
    made.add_principals(alloc, some)?;
    made.add_principals(alloc, others)?;
    Ok(made.into_vec())
}

/// The principals that the bindings name, each once, after all others.
pub fn principals_of(
    alloc: Global,
    entries: &[(u64, Binding)],
) -> Result<Vec<Option<Text>>, AllocError>
    ensures { IfOk result (λ made. made.items ≡ principals_named entries.now) }
{
    principals_of_both(alloc, entries, &[])
}
