//! All serials behind one place of the tree.
ghost use Rattle.std.specs.Prelude.{◌≡◌, ◌++◌, IfOk, OnOk};
ghost use Rattle.kob_prefix_tree.specs.Contents.{serials_behind};

use crate::place::Place;
use crate::serials::Serials;
use crate::walk::Walk;
use std::alloc::{AllocError, Global};

impl<'a> Place<'a> {
    /// The serials of both kinds of all keys that continue from here. The nodes that are still to
    /// be read are in a list, so that no text, however long, makes it recurse.
    #[tactic(auto, using(crate::proofs::BelowLemmas::reading))]
    pub(crate) fn serials_behind(self, alloc: Global) -> Result<Vec<u64>, AllocError>
        ensures { IfOk result (λ made. made.items ≡ serials_behind self.entry) }
    {
        let mut serials = Vec::new(alloc);
        push_both(&mut serials, self.literal, self.prefixed)?;
        let mut links = Vec::new(alloc);
        links.push(self.below)?;
        while let Some(link) = links.pop() {
            if link.is_null() {
                continue;
            }
            let node = link.get();
            push_both(&mut serials, &node.item.literal, &node.item.prefixed)?;
            links.push(&node.next)?;
            links.push(&node.child)?;
        }
        Ok(serials)
    }
}

/// Appends the serials of both kinds of one place.
#[tactic(auto, using(std::proofs::Common::append_assoc))]
fn push_both(
    serials: &mut Vec<u64>,
    literal: &Serials,
    prefixed: &Serials,
) -> Result<(), AllocError>
    ensures { OnOk result (serials.new.items
        ≡ serials.old.items ++ (literal.now ++ prefixed.now)) }
{
    push_all(serials, literal)?;
    push_all(serials, prefixed)
}

/// Appends the serials of one kind.
fn push_all(serials: &mut Vec<u64>, more: &Serials) -> Result<(), AllocError>
    ensures { OnOk result (serials.new.items ≡ serials.old.items ++ more.now) }
{
    for serial in Walk::over(more.unread()) {
        serials.push(serial)?;
    }
    Ok(())
}
