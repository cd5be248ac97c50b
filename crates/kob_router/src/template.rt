//! The template of a topic's name, with variables for the value by which a row is routed.

ghost use Rattle.std.specs.Prelude.{◌≡◌};
ghost use Rattle.kob_router.specs.Route.{is_template};

/// The variable for the value, as in Debezium's `route.topic.replacement`.
pub(crate) const ROUTED_BY_VALUE: &str = "${routedByValue}";

/// Whether a text can be a template: it is not empty, and each `$` begins `${routedByValue}`.
pub(crate) fn is_template(text: &[u8]) -> bool
    ensures { result ≡ is_template text.now }
{
    if text.is_empty() {
        return false;
    }
    for at in 0..text.len() {
        if text[at] == b'$' && !text[at..].starts_with(ROUTED_BY_VALUE.as_bytes()) {
            return false;
        }
    }
    true
}
