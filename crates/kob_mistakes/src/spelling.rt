//! The nearest name to a misspelt word.

ghost use Rattle.std.specs.Prelude.{◌≡◌, IfOk, OnOk, fold, map};
ghost use Rattle.std.specs.Char.{to_ascii_lowercase};
ghost use Rattle.std.specs.String.{string_bytes};
ghost use Rattle.kob_mistakes.specs.Spelling.{is_compared, nearest};
ghost use Rattle.kob_mistakes.specs.Spelling.{unless_same, with_nearer};

use kob_names::Text;
use std::alloc::{AllocError, Global};
use strsim::osa_distance;

fn is_compared(word: &str) -> bool
    ensures { result ≡ is_compared word.now }
{
    word.len() <= 64
}

fn lowered(alloc: Global, text: &str) -> Result<String, AllocError>
    ensures { IfOk result (λ made. string_bytes made ≡ map to_ascii_lowercase text.now) }
{
    text.to_ascii_lowercase(alloc)
}

/// The nearest of some names, and how many changes it needs; without one, the fewest changes that
/// are too many.
#[derive(Drop)]
struct Found {
    name: Option<Text>,
    least: usize,
}

impl Found {
    /// Takes another name into account.
    #[tactic(auto, unfolding(crate::specs::Spelling::distance))]
    fn add(&mut self, alloc: Global, word: &str, name: &str) -> Result<(), AllocError>
        ensures { OnOk result (self.new ≡ with_nearer word.now self.old name.now) }
    {
        if !is_compared(name) {
            return Ok(());
        }
        let lower_word = lowered(alloc, word)?;
        let lower_name = lowered(alloc, name)?;
        let changes = osa_distance(alloc, lower_word.as_str(), lower_name.as_str())?;
        if changes < self.least {
            self.name = Some(Text::copied(alloc, name)?);
            self.least = changes;
        }
        Ok(())
    }

    fn add_all(&mut self, alloc: Global, word: &str, names: &[&str]) -> Result<(), AllocError>
        ensures { OnOk result (self.new
            ≡ fold (with_nearer word.now) self.old (map (λ name. name.now) names.now)) }
    {
        for name in names {
            self.add(alloc, word, name)?;
        }
        Ok(())
    }
}

/// The name that is nearest to a word in any ASCII case, the first of several. None if none is near:
/// if more than a third of the word's bytes, and more than one, have to be changed, added, taken out
/// or swapped. Words of more than 64 bytes are not compared.
pub fn nearest(alloc: Global, word: &str, names: &[&str]) -> Result<Option<Text>, AllocError>
    ensures { IfOk result (λ name. name ≡ nearest word.now (map (λ name. name.now) names.now)) }
{
    if !is_compared(word) {
        return Ok(None);
    }
    let mut nearest = Found {
        name: None,
        least: (word.len() / 3).max(1) + 1,
    };
    nearest.add_all(alloc, word, names)?;
    Ok(nearest.name)
}

/// A name, unless it is the word itself, which is then not misspelt.
pub(crate) fn unless_same(name: Option<Text>, word: &str) -> Option<Text>
    ensures { result ≡ unless_same name word.now }
{
    match name {
        Some(name) if name.as_str() == word => None,
        found => found,
    }
}
