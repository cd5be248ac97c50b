//! Laws of the definitions. These functions do nothing: their contracts are the laws.

ghost use Rattle.std.specs.Prelude.{◌≡◌, ◌↔◌, Contains, IsTrue, List, ℕ, false};
ghost use Rattle.kob_authorizer.specs.Decide.{Contents, IsRising};
ghost use Rattle.kob_authorizer.specs.Creation.{AreDistinct, AreInForce, OnlyAdds, addition};
ghost use Rattle.kob_authorizer.specs.Decide.{decide, decide_by_bindings, Question};
ghost use Rattle.kob_authorizer.specs.Deletion.{bindings_left};
ghost use Rattle.kob_authorizer.specs.Decide.{IsTrueVerdict, NoneHits, NoneMatches};
ghost use Rattle.kob_names.specs.Binding.{Binding, is_granted};
ghost use Rattle.kob_names.specs.declared.filter.BindingFilter.{BindingFilter};
ghost use Rattle.kob_names.specs.declared.kinds.Permission.TheVariants.{Allow, Deny};
ghost use Rattle.kob_names.specs.declared.verdict.Verdict.{Verdict};

/// Each verdict is true of the whole list. Super comes only for a super user. DeniedBy has the
/// least serial of all denies that hit. AllowedBy has the least serial of all allows that hit, and
/// comes only if no deny hits. NoAllow comes only if neither hits and, with `everyone`, only if a
/// binding matches the resource. NoAclFound comes only with `everyone`, and only if no binding
/// matches the resource.
#[tactic(auto, using(crate::proofs::Verdicts::true_verdict))]
pub fn verdicts_are_true()
    ensures { (contents : Contents) (question : Question)
        → IsRising 1 contents.entries contents.next
        → IsTrueVerdict contents question (decide contents question) }
{
    // The contract is the law.
}

/// At most one verdict is true: two that are true are equal.
#[tactic(auto, using(crate::proofs::Verdicts::only_one))]
pub fn a_true_verdict_is_the_only_one()
    ensures { (contents : Contents) (question : Question) (one other : Verdict)
        → IsTrueVerdict contents question one → IsTrueVerdict contents question other
        → one ≡ other }
{
    // The contract is the law.
}

/// If nothing is open to everyone, super users and bindings alone decide.
#[tactic(auto, using(crate::proofs::Verdicts::by_bindings))]
pub fn bindings_decide_where_nothing_is_open()
    ensures { (contents : Contents) (question : Question) → contents.everyone ≡ false
        → decide contents question
        ≡ decide_by_bindings contents.entries contents.supers question }
{
    // The contract is the law.
}

/// With `everyone`, take a question that no binding hits, of a principal that is not a super user.
/// It is granted exactly if no binding matches the resource, whomever it covers.
#[tactic(auto, using(crate::proofs::Verdicts::granted_unmatched))]
pub fn everyone_is_granted_what_no_binding_matches()
    ensures { (contents : Contents) (question : Question) → IsTrue contents.everyone
        → ¬ Contains contents.supers question.principal
        → NoneHits Deny question contents.entries → NoneHits Allow question contents.entries
        → IsTrue (is_granted (decide contents question))
        ↔ NoneMatches question contents.entries }
{
    // The contract is the law.
}

/// After a creation each binding of the call is in force, under the serial that was returned for
/// it.
#[tactic(auto, using(crate::proofs::Creating::created_in_force))]
pub fn created_bindings_are_in_force()
    ensures { (entries : List (ℕ × Binding)) (next : ℕ) (bindings : List Binding)
        → AreInForce (addition entries next bindings).entries bindings
        (addition entries next bindings).serials }
{
    // The contract is the law.
}

/// A creation keeps what was in force, and uses no serial that was used before.
#[tactic(auto, using(crate::proofs::Creating::only_adds))]
pub fn creations_only_add()
    ensures { (entries : List (ℕ × Binding)) (next : ℕ) (bindings : List Binding)
        → OnlyAdds entries next (addition entries next bindings) }
{
    // The contract is the law.
}

/// Creations and deletions keep the serials ascending and below the next one.
#[tactic(auto, using(crate::proofs::Creating::added_rises, crate::proofs::Entries::removed_rises))]
pub fn serials_keep_rising()
    ensures created { (entries : List (ℕ × Binding)) (next : ℕ) (bindings : List Binding)
        → IsRising 1 entries next
        → IsRising 1 (addition entries next bindings).entries
        (addition entries next bindings).next }
    ensures deleted { (entries : List (ℕ × Binding)) (next : ℕ) (filter : BindingFilter)
        → IsRising 1 entries next
        → IsRising 1 (bindings_left filter entries) next }
{
    // The contract is the law.
}

/// If no two bindings in force are equal, no two are equal after a creation or a deletion.
#[tactic(auto, using(crate::proofs::Creating::added_distinct, crate::proofs::Creating::removed_distinct))]
pub fn bindings_stay_distinct()
    ensures created { (entries : List (ℕ × Binding)) (next : ℕ) (bindings : List Binding)
        → AreDistinct entries
        → AreDistinct (addition entries next bindings).entries }
    ensures deleted { (entries : List (ℕ × Binding)) (filter : BindingFilter)
        → AreDistinct entries
        → AreDistinct (bindings_left filter entries) }
{
    // The contract is the law.
}
