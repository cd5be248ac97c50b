//! What a word has to be that breaks its rule.

ghost use Rattle.std.specs.Prelude.{◌≡◌, map, option_map};
ghost use Rattle.kob_mistakes.specs.Rules.{id_rule, principal_rule, rule_at};

use crate::record::word_is;
use kob_scene_text::SceneFaultKind;
use kob_script::FaultKind;

#[tactic(auto, unfolding(crate::specs::Rules::principal_rule))]
fn principal_rule() -> &'static str
    ensures { result.now ≡ principal_rule }
{
    "a principal is User: and a name, as User:alice"
}

#[tactic(auto, unfolding(crate::specs::Rules::id_rule))]
fn id_rule() -> &'static str
    ensures { result.now ≡ id_rule }
{
    "an id is a UUID, as 00000000-0000-0000-0000-000000000001"
}

/// The rule of the word at a place, where a fault of this kind was found.
pub(crate) fn rule_at(kind: SceneFaultKind, words: &[&[u8]], place: usize) -> Option<&'static str>
    ensures { option_map (λ rule. rule.now) result
        ≡ rule_at kind (map (λ word. word.now) words.now) place }
{
    let before = place.saturating_sub(1);
    match kind {
        SceneFaultKind::Script(FaultKind::BadPrincipal) => Some(principal_rule()),
        SceneFaultKind::BadId => Some(id_rule()),
        SceneFaultKind::Script(FaultKind::BadName)
            if word_is(words, before, b"--allow-principal")
                || word_is(words, before, b"--deny-principal")
                || word_is(words, before, b"--principal") => { Some(principal_rule()) }
        _ => None,
    }
}
