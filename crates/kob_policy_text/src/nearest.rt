//! The nearest of the names of patterns to a name that no pattern takes.

ghost use Rattle.std.specs.Prelude.{◌≡◌, IfOk, OnOk};
ghost use Rattle.kob_policy_text.specs.Nearest.{is_compared, nearest_of};
ghost use Rattle.kob_policy_text.specs.Nearest.{with_nearer};

use kob_names::{PlainValue, Text};
use std::alloc::{AllocError, Global};
use strsim::osa_distance;

/// The nearest of some names, and how many changes it needs; without one, the fewest changes that
/// are too many.
#[derive(Drop)]
struct Nearest {
    found: Option<Text>,
    least: usize,
}

fn is_compared(name: &str) -> bool
    ensures { result ≡ is_compared name.now }
{
    name.len() <= 64
}

impl Nearest {
    /// Takes another name into account.
    #[tactic(auto, unfolding(crate::specs::Nearest::distance))]
    fn add(&mut self, alloc: Global, name: &str, other: &Text) -> Result<(), AllocError>
        ensures { OnOk result (self.new ≡ with_nearer name.now self.old other.now) }
    {
        if !is_compared(other.as_str()) {
            return Ok(());
        }
        let changes = osa_distance(alloc, name, other.as_str())?;
        if changes < self.least {
            self.found = Some(other.copy(alloc)?);
            self.least = changes;
        }
        Ok(())
    }
}

/// The name among others that the fewest changes make of a name: one, or no more than a third of its
/// bytes. The first of several. A change is a character more, less or another, or two side by side
/// the other way round. Names of more than 64 bytes are not compared.
#[tactic(auto, using(std::proofs::lemmas::List::Sums::fold_more))]
pub fn nearest_of(alloc: Global, name: &str, others: &[Text]) -> Result<Option<Text>, AllocError>
    ensures { IfOk result (λ found. found ≡ nearest_of name.now others.now) }
{
    if !is_compared(name) {
        return Ok(None);
    }
    let mut nearest = Nearest {
        found: None,
        least: (name.len() / 3).max(1) + 1,
    };
    for other in others {
        nearest.add(alloc, name, other)?;
    }
    Ok(nearest.found)
}
