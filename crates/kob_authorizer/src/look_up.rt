//! The search for bindings by the serials in the trees; no other binding is examined. A decision
//! examines bindings of the principal that asks and of `User:*`, for its host and for every host.
//! They are on the kind of resource in question.

ghost use Rattle.std.specs.Prelude.{◌≡◌, ◌<◌, ◌∷◌, [], ◌&&◌, ◌==◌, ℕ, None, Some, false, get_or, length};
ghost use Rattle.std.specs.Option.{IfSome, MatchOption, option_copied};
ghost use Rattle.kob_names.specs.Binding.{Binding};
ghost use Rattle.kob_authorizer.specs.Decide.{question_view, first_serial, hits, is_unmatched};
ghost use Rattle.kob_authorizer.specs.Decide.{unless_open, verdict_of};
ghost use Rattle.kob_authorizer.specs.Index.{Indexes, tree_of, AreRising, entry_at, least_hits};
ghost use Rattle.kob_authorizer.specs.Index.{matching_serials, serials_from};
ghost use Rattle.kob_prefix_tree.specs.Contents.{part_of};
ghost use Rattle.kob_prefix_tree.specs.Held.{held};

use crate::hits::Hits;
use crate::index::Index;
use crate::key::{SEPARATOR, keys_on};
use crate::question::Question;
use kob_names::{Binding, Permission, ResourceKind, Verdict};
use kob_prefix_tree::{Part, PatternKind};

/// The verdict for a principal that is not a super user. A deny wins over every allow. Without
/// either, the right is not granted, unless `everyone` is on and no binding matches the resource.
pub fn verdict(
    entries: &[(u64, Binding)],
    index: &Index,
    everyone: bool,
    question: &Question,
) -> Verdict
    requires rising { AreRising entries.now }
    requires indexed { Indexes index.now entries.now }
    ensures { result ≡ unless_open
        (everyone && is_unmatched entries.now (question_view question.now))
        (verdict_of false
        (first_serial (hits entries.now Permission.Deny (question_view question.now)))
        (first_serial (hits entries.now Permission.Allow (question_view question.now)))) }
{
    let hits = first_hits(entries, index, question);
    match hits.deny {
        Some(serial) => Verdict::DeniedBy(serial),
        None => match hits.allow {
            Some(serial) => Verdict::AllowedBy(serial),
            None if everyone && is_unmatched(index, question.resource, question.name) =>
                Verdict::NoAclFound,
            None => Verdict::NoAllow,
        },
    }
}

/// Whether no binding matches the resource, whatever its other parts: the trees have no serial for
/// the name. No binding is examined.
pub fn is_unmatched(index: &Index, resource: ResourceKind, name: &str) -> bool
    ensures { result ≡ (length (matching_serials
        (held (tree_of index.now.patterns resource)) name.now) == 0) }
{
    let tree = index.patterns.tree(resource);
    tree.walk(name.as_bytes()).next().is_none() && tree.literal("*".as_bytes()).next().is_none()
}

/// The least serials of a deny and of an allow that hit the question.
fn first_hits(entries: &[(u64, Binding)], index: &Index, question: &Question) -> Hits
    requires rising { AreRising entries.now }
    requires indexed { Indexes index.now entries.now }
    ensures deny { result.deny
        ≡ first_serial (hits entries.now Permission.Deny (question_view question.now)) }
    ensures allow { result.allow
        ≡ first_serial (hits entries.now Permission.Allow (question_view question.now)) }
{
    let keys = keys_on(&index.keys, question.resource);
    let of_who = keys.behind(question.principal.as_str().as_bytes(), SEPARATOR);
    let of_everyone = keys.behind("User:*".as_bytes(), SEPARATOR);
    hits_of(entries, of_who, question).or_lesser(hits_of(entries, of_everyone, question))
}

/// The least serials of the hits among the keys of one principal, for the host that asks and for
/// every host.
fn hits_of(entries: &[(u64, Binding)], keys: Part<'_>, question: &Question) -> Hits
    requires { AreRising entries.now }
    ensures { result ≡ least_hits entries.now (question_view question.now)
        (serials_from (part_of keys.entry) (question_view question.now)) }
{
    if keys.is_absent() {
        return Hits::none();
    }
    let from_host = keys.behind(question.host.as_str().as_bytes(), SEPARATOR);
    let from_everywhere = keys.behind("*".as_bytes(), SEPARATOR);
    hits_at(entries, from_host, question).or_lesser(hits_at(entries, from_everywhere, question))
}

/// The least serials of the hits among the patterns that match the name.
fn hits_at(entries: &[(u64, Binding)], names: Part<'_>, question: &Question) -> Hits
    requires { AreRising entries.now }
    ensures { result ≡ least_hits entries.now (question_view question.now)
        (matching_serials (part_of names.entry) question.now.name.now) }
{
    if names.is_absent() {
        return Hits::none();
    }
    names
        .walk(question.name.as_bytes())
        .chain(names.listed("*".as_bytes(), PatternKind::Literal))
        .fold(
            Hits::none(),
            |hits, serial| hits.or_lesser(hit_with(entries, serial, question)),
        )
}

/// The serial, if its binding is a hit.
#[tactic(auto, using(crate::proofs::LeastHits::one_hit))]
fn hit_with(entries: &[(u64, Binding)], serial: u64, question: &Question) -> Hits
    requires { AreRising entries.now }
    ensures { result ≡ least_hits entries.now (question_view question.now) (serial ∷ []) }
{
    match entry_of(entries, serial) {
        None => Hits::none(),
        Some(entry) => match entry.1.parts().permission {
            Permission::Deny => Hits {
                deny: question.is_hit(Permission::Deny, entry).then_some(serial),
                allow: None,
            },
            Permission::Allow => Hits {
                deny: None,
                allow: question.is_hit(Permission::Allow, entry).then_some(serial),
            },
        },
    }
}

/// The entry with this serial.
pub fn entry_of(entries: &[(u64, Binding)], serial: u64) -> Option<&(u64, Binding)>
    requires { AreRising entries.now }
    ensures { option_copied result ≡ entry_at entries.now serial }
{
    match place_of(entries, serial) {
        Some(place) => Some(&entries[place]),
        None => None,
    }
}

/// The place of the entry with this serial.
pub fn place_of(entries: &[(u64, Binding)], serial: u64) -> Option<usize>
    requires { AreRising entries.now }
    ensures { MatchOption result (None ≡ entry_at entries.now serial)
        (λ place. (place < length entries.now) × ((d : ℕ × Binding)
        → Some (get_or entries.now place d) ≡ entry_at entries.now serial)) }
{
    match place_in_row(entries, serial) {
        Some(place) => Some(place),
        None => searched_place(entries, serial),
    }
}

/// The place of the entry with this serial, if every serial from the first entry's to this one is
/// in force.
fn place_in_row(entries: &[(u64, Binding)], serial: u64) -> Option<usize>
    requires { AreRising entries.now }
    ensures { IfSome result (λ place. (place < length entries.now) × ((d : ℕ × Binding)
        → Some (get_or entries.now place d) ≡ entry_at entries.now serial)) }
{
    let first = entries.first()?;
    let place = serial.checked_sub(first.0)? as usize;
    if place < entries.len() && entries[place].0 == serial {
        return Some(place);
    }
    None
}

/// The place of the entry with this serial, by binary search.
fn searched_place(entries: &[(u64, Binding)], serial: u64) -> Option<usize>
    requires { AreRising entries.now }
    ensures { MatchOption result (None ≡ entry_at entries.now serial)
        (λ place. (place < length entries.now) × ((d : ℕ × Binding)
        → Some (get_or entries.now place d) ≡ entry_at entries.now serial)) }
{
    entries.binary_search_by_key(&serial, |entry| entry.0).ok()
}
