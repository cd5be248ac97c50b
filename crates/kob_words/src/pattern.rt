//! The words for kinds of pattern, and for what a filter selects.

ghost use Rattle.std.specs.Prelude.{◌≡◌};
ghost use Rattle.kob_words.specs.Words.{pattern_name, pattern_named, filter_pattern_named};

use kob_names::{FilterPattern, PatternKind};

/// The name of a kind of pattern, in capitals as `kafka-acls` prints it.
pub fn pattern_name(kind: PatternKind) -> &'static str
    ensures { result.now ≡ pattern_name kind }
{
    match kind {
        PatternKind::Literal => "LITERAL",
        PatternKind::Prefixed => "PREFIXED",
    }
}

/// The kind of pattern of that name, in any ASCII case.
pub fn pattern_named(name: &[u8]) -> Option<PatternKind>
    ensures { result ≡ pattern_named name.now }
{
    let kinds = [PatternKind::Literal, PatternKind::Prefixed];
    kinds
        .iter()
        .find(|kind| name.eq_ignore_ascii_case(pattern_name(**kind).as_bytes()))
        .copied()
}

/// What a filter of that name selects, in any ASCII case: `any`, `match`, or a kind of pattern.
pub fn filter_pattern_named(name: &[u8]) -> Option<FilterPattern>
    ensures { result ≡ filter_pattern_named name.now }
{
    if name.eq_ignore_ascii_case(b"ANY") {
        return Some(FilterPattern::Any);
    }
    if name.eq_ignore_ascii_case(b"MATCH") {
        return Some(FilterPattern::Matching);
    }
    match pattern_named(name) {
        Some(PatternKind::Literal) => Some(FilterPattern::Literal),
        Some(PatternKind::Prefixed) => Some(FilterPattern::Prefixed),
        None => None,
    }
}
